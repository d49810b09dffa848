// What an equality leaves to be split, by the clauses that it means: for each named position "it is
// in M", and for each value of M "one of the named positions has it". The contracts cite
// specs/Untaken.antt and specs/LowestBy.antt.
ghost use Rattle.std.specs.Prelude.{◌≡◌, length};
ghost use Rattle.rules.specs.Contents.{PositionsFit, ContentFits};
ghost use Rattle.rules.specs.Reading.{rule_of};
ghost use Rattle.rules.specs.declared.field.Tag.TheVariants.{Equality};
ghost use Rattle.lowest.specs.LowestBy.{lowest_by};
ghost use Rattle.lowest.specs.Untaken.{untaken};

use rooms::Rooms;
use rules::field::set_at;
use sets::Room;

// The values of the set that no named position has alone in its room: those whose clause is not
// settled. An empty room lies inside every set, and settles them all.
fn untaken(rooms: &Rooms, positions: &[u8], set: Room) -> Room
    requires { PositionsFit (length rooms.now.box) positions.now }
    ensures { result ≡ untaken rooms.now.box set positions.now }
{
    let mut left = set;
    for &p in positions {
        let room = rooms.at(p as u32);
        if room.is_empty() {
            return Room::EMPTY;
        }
        if room.count() == 1 {
            left = left.common(room.complement(Room::VALUES));
        }
    }
    left
}

// The lowest index below a bound that step 4 may split because of the equality that a content is; the
// bound where there is none. A named position is live in a clause that is not settled where its room
// meets M and does not lie inside it, or has a value that is not taken.
pub(crate) fn lowest_by_equality(rooms: &Rooms, content: &[u8], bound: usize) -> usize
    requires { ContentFits Equality (length rooms.now.box) (length content.now) content.now }
    ensures { result ≡ lowest_by rooms.now.box (rule_of Equality (length content.now) content.now) bound }
{
    let set = set_at(content, 0);
    let positions = &content[4..];
    let left = untaken(rooms, positions, set);
    let mut low = bound;
    for &p in positions {
        let i = p as usize - 1;
        let room = rooms.at(p as u32);
        // Where the room lies inside M, "it is in M" is settled, and only the untaken values count.
        let to_meet = if room.inside(set) { left } else { set };
        if i < low && room.meets(to_meet) {
            low = i;
        }
    }
    low
}
