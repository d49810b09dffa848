// The search of a box, which calls itself on both halves of a split. The contract cites the search of
// `steps` and specs/Promise.antt.
ghost use Rattle.std.specs.Prelude.{◌≤◌, length};
ghost use Rattle.rules.specs.Sound.{SoundInput};
ghost use Rattle.searching.specs.Answered.{Counts, WasShrunk};
ghost use Rattle.searching.specs.Promise.{Searches};

use super::reply::Reply;
use boxes::shrink::{Verdict, shrink};
use choosing::choose::choose;
use rooms::Rooms;
use splitting::halves::{Half, keep_half};
use splitting::values::write_smallest;

// The search of a box of rooms that was shrunk under the rules of a sound file, with this verdict, and
// with the splits and the dead ends so far: a dead box is a dead end; a settled one, in which no room is
// left to split, gives the smallest value of each room, which goes to the buffer; any other is split, and
// its halves are made, shrunk and searched one after the other, the second from the rooms as they were
// before the split. A call holds two arrays of rooms, the box that it was given and one half.
// Kept: the splits and the dead ends as two numbers, as the reply has them: each call adds to one of the two, so a
// struct would be made anew at each, and is no plainer.
pub fn search(
    input: &[u8],
    allowed: u64,
    verdict: Verdict,
    rooms: Rooms,
    splits: u64,
    dead_ends: u64,
    answer: &mut [u8],
) -> Reply
    requires { SoundInput input.now (length rooms.box) × WasShrunk input.now verdict rooms × Counts allowed splits dead_ends × (64 ≤ length answer.old) }
    ensures { Searches input.now allowed verdict rooms splits dead_ends answer.old result answer.new }
{
    if let Err(dead) = verdict {
        return Reply::none(dead.place, splits, dead_ends + 1);
    }
    let chosen = choose(input, &rooms);
    let Some(i) = chosen else {
        // Nothing is left to cut and nothing to split: the box is settled.
        write_smallest(answer, &rooms);
        return Reply::ended(Reply::PLAN, splits, dead_ends);
    };
    if allowed <= splits {
        return Reply::ended(Reply::UNDECIDED, splits, dead_ends);
    }
    let mut half = rooms;
    keep_half(&mut half, i, Half::First);
    let low = shrink(input, &mut half).verdict;
    let first = search(input, allowed, low, half, splits + 1, dead_ends, answer);
    if first.number != Reply::NONE {
        return first;
    }
    half = rooms;
    keep_half(&mut half, i, Half::Other);
    let high = shrink(input, &mut half).verdict;
    search(
        input,
        allowed,
        high,
        half,
        first.splits,
        first.dead_ends,
        answer,
    )
}
