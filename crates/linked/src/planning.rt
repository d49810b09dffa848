// The planner's one call with its reply in five cells, and the most rounds that it can report. The
// contracts cite specs/Linked.antt, and specs/Most.antt of the planner.
ghost use Rattle.planner.specs.Most.{RoundsMost};
ghost use Rattle.linked.specs.Linked.{Linked};

use planner::plan::plan;
use planner::rounds::rounds_most;

// Plans a file of rules: `plan` of the planner, with the reply's numbers in the five cells.
// Kept: a cell for each number in place of one reply, as the C interface has it.
#[unsafe(no_mangle)]
pub extern "C" fn oarloom_plan(
    input: &[u8],
    answer: &mut [u8],
    allowance: u64,
    number: &mut u64,
    place: &mut u64,
    splits: &mut u64,
    dead_ends: &mut u64,
    rounds: &mut u64,
)
    ensures { Linked input.now answer.old answer.new allowance number.new place.new splits.new dead_ends.new rounds.new }
{
    let reply = plan(input, answer, allowance);
    *number = u64::from(reply.number);
    *place = reply.place as u64;
    *splits = reply.splits;
    *dead_ends = reply.dead_ends;
    *rounds = reply.rounds;
}

// The most rounds that `oarloom_plan` can report for a file of rules; 0 for a file that is refused.
#[unsafe(no_mangle)]
pub extern "C" fn oarloom_rounds_most(input: &[u8]) -> u64
    ensures { RoundsMost input.now result }
{
    rounds_most(input)
}
