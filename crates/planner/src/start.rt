// The rooms that the search of a file starts with: {1..n}, and the starting sets of the file, wherever
// they stand. The contracts cite Start.antt of `steps`.
ghost use Rattle.std.specs.Prelude.{◌≡◌, ◌-◌, length};
ghost use Rattle.rules.specs.Contents.{ContentFits};
ghost use Rattle.rules.specs.Reading.{rule_of, reading};
ghost use Rattle.rules.specs.Sound.{SoundInput, file_of};
ghost use Rattle.steps.specs.Boxes.{start_box};
ghost use Rattle.steps.specs.Start.{start_by, starts_by};
ghost use Rattle.rooms.specs.Held.{with_box};

use rooms::Rooms;
use rules::field::{Tag, atom_at};
use rules::fields::{FieldBytes, fields};
use sets::Room;

// Puts the starting set that a field gives a position into its place; any other field leaves the rooms as
// they are.
fn start_field(field: FieldBytes<'_>, rooms: &mut Rooms)
    requires { ContentFits field.kind (length rooms.old.box) (length field.content.now) field.content.now }
    ensures { rooms.new ≡ with_box (start_by (rule_of field.entry.kind (length field.entry.content.now) field.entry.content.now) rooms.old.box) rooms.old }
{
    if let Tag::Starting = field.kind {
        let atom = atom_at(field.content, 0);
        rooms.put(atom.position, atom.set);
    }
}

// The rooms at the start, by one walk over a sound file of so many positions and of values 1 to n.
// It is taken into its two callers: as a call of its own, what it answers would be cleared first, by a call of memset that a
// program in C would have to bring.
#[inline(always)]
pub(crate) fn start_rooms(input: &[u8], positions: usize, n: u32) -> Rooms
    requires { SoundInput input.now positions }
    ensures { result ≡ record { box = starts_by (file_of (reading input.now)).rules (start_box positions n); rest = start_box (64 - positions) n } }
{
    let mut rooms = Rooms::of([Room::full(n); Room::POSITIONS], positions);
    for field in fields(input) {
        start_field(field, &mut rooms);
    }
    rooms
}
