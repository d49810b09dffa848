// Where to split a box: a nested scan over fields and atoms, which leaves a field at the first atom
// that shows it settled. The contracts cite specs/Promise.antt and specs/FirstWide.antt.
ghost use Rattle.std.specs.Prelude.{◌≡◌, length};
ghost use Rattle.rules.specs.Sound.{SoundInput};
ghost use Rattle.choosing.specs.FirstWide.{index_below, first_wide};
ghost use Rattle.choosing.specs.Promise.{Chooses};

use clauses::settle::settled_united;
use lowest::kinds::lowest_by_kind;
use rooms::Rooms;
use rules::atoms::atoms;
use rules::field::Tag;
use rules::fields::fields;

// The index of the first room with two or more values, if one has.
fn first_wide(rooms: &Rooms) -> Option<usize>
    ensures { result ≡ index_below (length rooms.now.box) (first_wide rooms.now.box) }
{
    rooms.as_slice().iter().position(|room| room.count() >= 2)
}

// The lowest index of a room that step 4 may split: it has two or more values, and its position is
// live in a clause that is not settled. None where there is none: then a box from which nothing can be
// cut is settled. Where the set of one atom shows a clause settled, its field is left at once, and
// the sets are united only where a lower index depends on it. No index below the first room with two
// or more values can come: where that is found the scan is over.
// It stays a call of its own: taken into `search`, the half that is made there would be cleared first, by a call of memset
// that a program in C would have to bring.
#[inline(never)]
pub fn choose(input: &[u8], rooms: &Rooms) -> Option<usize>
    requires { SoundInput input.now (length rooms.now.box) }
    ensures { Chooses input.now rooms.now result }
{
    let first = first_wide(rooms)?;
    let mut best = rooms.positions();
    'fields: for field in fields(input) {
        if best <= first {
            break;
        }
        if field.kind != Tag::Clause {
            best = lowest_by_kind(rooms, field.content, field.kind, best);
            continue;
        }
        let mut low = best;
        for atom in atoms(field.content) {
            let room = rooms.at(atom.position);
            if room.inside(atom.set) {
                continue 'fields;
            }
            let i = atom.position as usize - 1;
            if i < low && room.meets(atom.set) {
                low = i;
            }
        }
        if low < best && !settled_united(rooms, field.content) {
            best = low;
        }
    }
    (best < rooms.positions()).then_some(best)
}
