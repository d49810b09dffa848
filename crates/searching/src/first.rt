// The search from the first box on. The contract cites specs/Promise.antt.
ghost use Rattle.std.specs.Prelude.{◌≤◌, length};
ghost use Rattle.rules.specs.Sound.{SoundInput};
ghost use Rattle.steps.specs.Boxes.{Rooms as FullRooms};
ghost use Rattle.searching.specs.Promise.{SearchesFrom};

use super::reply::Reply;
use super::search::search;
use boxes::shrink::shrink;
use rooms::Rooms;

// The search that starts with the box of these rooms under the rules of a sound file: the box is shrunk, and
// the reply has the rounds which that took. A plan's values go to the buffer.
pub fn search_from(input: &[u8], allowed: u64, rooms: Rooms, answer: &mut [u8]) -> Reply
    requires { SoundInput input.now (length rooms.box) × FullRooms rooms.box × (allowed ≤ 1000000) × (64 ≤ length answer.old) }
    ensures { SearchesFrom input.now allowed rooms answer.old result answer.new }
{
    let mut first = rooms;
    let shrunk = shrink(input, &mut first);
    let reply = search(input, allowed, shrunk.verdict, first, 0, 0, answer);
    reply.with_rounds(shrunk.rounds)
}
