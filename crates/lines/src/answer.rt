// From the bytes of a file to what the program writes for it. The contracts cite specs/Printed.antt.
ghost use Rattle.std.specs.Prelude.{◌≡◌};
ghost use Rattle.rules.specs.Reading.{reading};
ghost use Rattle.lines.specs.Printed.{Printed, positions_of};

use super::reply::text;
use planner::plan::plan;
use reasons::reason;
use sets::Room;
use sound::check::check;
use texts::Text;

// The splits that the program allows.
const ALLOWANCE: u64 = 100_000;

// The number of positions of a sound file; 0 where the file is refused.
// Kept: 0 in place of an `Option`, since `positions_of`, by which `Printed` goes, says 0.
fn positions(input: &[u8]) -> usize
    ensures { result ≡ positions_of (reading input.now) }
{
    match check(input) {
        Ok(limits) => limits.positions as usize,
        Err(_) => 0,
    }
}

// What the program writes for an input: the text that it prints, and what it says of the reply in
// words, on standard error.
#[derive(Clone, Copy)]
pub struct Output {
    pub printed: Text,
    pub said: Text,
}

// What the program writes for an input: the reply with 100,000 splits allowed, with the values of a
// plan, one for each of the file's positions, and the words for that reply.
pub fn answer(input: &[u8]) -> Output
    ensures { Printed input.now result }
{
    let mut values = [0u8; Room::POSITIONS];
    let reply = plan(input, &mut values, ALLOWANCE);
    let said = reason(reply.number, reply.place);
    let v = positions(input);
    let printed = text(reply, &values, v);
    Output { printed, said }
}
