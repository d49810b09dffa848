// The one call that people rely on: a file of rules, a buffer for the answer and an allowance of
// splits to the one reply that 01 lists. The contracts cite specs/Promise.antt.
ghost use Rattle.planner.specs.Promise.{Planned};

use super::start::start_rooms;
use searching::first::search_from;
use searching::reply::Reply;
use sets::Room;
use sound::check::check;

// The one reply of 01's table for every input, every buffer length and every allowance: 10, 11, 12,
// then the file's own refusals, then what the search finds, with the rounds of the first box. A plan's
// values go to bytes 0 to v - 1 of the buffer; every other byte, and every byte at any other reply,
// stays.
pub fn plan(input: &[u8], answer: &mut [u8], allowance: u64) -> Reply
    ensures { Planned input.now answer.old answer.new allowance result }
{
    if 32768 < input.len() {
        return Reply::refused(10, 0);
    }
    if answer.len() < Room::POSITIONS {
        return Reply::refused(11, 0);
    }
    if 1000000 < allowance {
        return Reply::refused(12, 0);
    }
    match check(input) {
        Ok(limits) => {
            let rooms = start_rooms(input, limits.positions as usize, limits.values);
            search_from(input, allowance, rooms, answer)
        }
        Err(refusal) => Reply::refused(u32::from(refusal.fault), refusal.place),
    }
}
