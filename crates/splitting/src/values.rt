// The values of a plan, written where the caller wants them. The contract cites specs/Promise.antt.
ghost use Rattle.std.specs.Prelude.{◌≤◌, length};
ghost use Rattle.splitting.specs.Promise.{WritesSmallest};

use rooms::Rooms;

// Writes the smallest value of each room to the front of the buffer.
pub fn write_smallest(answer: &mut [u8], rooms: &Rooms)
    requires { length rooms.now.box ≤ length answer.old }
    ensures { WritesSmallest rooms.now answer.old answer.new }
{
    // Kept: an index, and no `zip` with `answer.iter_mut()`: tried, and behind that loop nothing is known of
    // the bytes that were written (the goal `returns` stays open; an adapter of `iter_mut` says no more).
    for (i, room) in rooms.as_slice().iter().enumerate() {
        answer[i] = room.smallest() as u8;
    }
}
