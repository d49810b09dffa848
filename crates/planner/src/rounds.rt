// The end of a progress bar: the most rounds that the first box of a file can take, known before the work
// begins. The contracts cite specs/Most.antt.
ghost use Rattle.std.specs.Prelude.{◌≡◌, ◌-◌, ◌≤◌, length};
ghost use Rattle.sets.specs.Sets.{count};
ghost use Rattle.steps.specs.Boxes.{spare_values};
ghost use Rattle.planner.specs.Most.{RoundsMost};

use super::start::start_rooms;
use rooms::Rooms;
use sets::Room;
use sound::check::check;

// The values that a room may still lose, down to its last one: its size less one. An empty room has
// none to lose.
fn spare_in(room: Room) -> u64
    ensures { (result ≡ count room - 1) × (result ≤ 31) }
{
    // That a room is a mask of 32 bits is what bounds its size.
    prove!(u32::from(room) <= u32::MAX);
    u64::from(room.count().saturating_sub(1))
}

// The values that the rooms may still lose.
fn spare_values(rooms: &Rooms) -> u64
    requires { length rooms.now.box ≤ 64 }
    ensures { result ≡ spare_values rooms.now.box }
{
    rooms.as_slice().iter().map(|&room| spare_in(room)).sum()
}

// The most rounds that `plan` can report for an input, whatever the buffer and the allowance: the sum
// over positions of starting size less one, plus one. 0 for a file that is refused.
// Kept: 0 in place of an `Option`: `RoundsMost` says 0.
pub fn rounds_most(input: &[u8]) -> u64
    ensures { RoundsMost input.now result }
{
    if 32768 < input.len() {
        return 0;
    }
    match check(input) {
        Ok(limits) => {
            let rooms = start_rooms(input, limits.positions as usize, limits.values);
            spare_values(&rooms) + 1
        }
        Err(_) => 0,
    }
}
