// Runs `plan` on every example of 01's section "Bench examples", on files that tell readings of the place
// of a NONE (02, R-3), of the rounds (R-10), of step 4 (R-2), of starting sets (R-6), of at-most rules (R-12)
// and of rules added late (R-14) apart, and on inputs, buffers and allowances at their limits. It prints a
// line for each: the example's letter or name, the reply's number, place, splits, dead ends and rounds, the
// values where the reply is a plan, and `kept` where every byte of the buffer that the reply may not write
// stayed, else `touched`. Behind that line stands what the program prints for the file, by `answer`, with its
// own buffer and 100,000 splits. For some inputs it prints a name and the most rounds, by `rounds_most`.
//
// The file `stdout` beside src/ has the lines that are right. It was made by other means, from the
// text of 01 and 02: the replies that 01's examples give, with case l as 02 (R-2) has it, the place of
// case d (R-3) and the rounds (R-10), those that unmet.rt, rounds.rt, step4.rt, starting.rt,
// at_most_rules.rt and added.rt work out by hand, and for the limits 01's table and its order;
// models/bench_examples.py makes it again.
#![tactic(auto)]

mod added;
mod at_most_rules;
mod limits;
mod line;
mod reading;
mod rounds;
mod starred;
mod starting;
mod step4;
mod unmet;

use line::show_all;

fn main(rt: HostRuntime) {
    starred::all(&rt);
    show_all(&rt, &unmet::EXAMPLES);
    rounds::all(&rt);
    show_all(&rt, &step4::EXAMPLES);
    starting::all(&rt);
    at_most_rules::all(&rt);
    added::all(&rt);
    reading::all(&rt);
    limits::all(&rt);
}
