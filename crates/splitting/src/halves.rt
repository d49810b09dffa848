// The two halves of a split, each made where the rooms stand. The contract cites specs/Promise.antt,
// which goes by the boxes of `steps`.
ghost use Rattle.std.specs.Prelude.{◌<◌, length};
ghost use Rattle.splitting.specs.Promise.{KeepsHalf};

use rooms::Rooms;
use sets::Room;

// A half of a split: the smallest value of the room that is split, or its others.
// Kept: an enum of the two and no closure: `KeepsHalf` says which rooms each leaves.
#[derive(Clone, Copy, PartialEq, Eq, Debug)]
pub enum Half {
    First,
    Other,
}

// Leaves one half of the rooms: its values alone in the room at an index.
pub fn keep_half(rooms: &mut Rooms, i: usize, half: Half)
    requires { i < length rooms.old.box }
    ensures { KeepsHalf half rooms.old i rooms.new }
{
    let room = rooms.as_slice()[i];
    let kept = match half {
        Half::First => Room::single(room.smallest()),
        Half::Other => room.others(),
    };
    rooms.set(i, kept);
}
