// Runs `plan` on a file whose search is nearly as deep as a search can be, and prints the reply in
// one line: its number, place, splits, dead ends and rounds, and the 64 bytes of the answer. It shows
// that this depth fits a stack of 2 MiB: no more is left to the planner (stack.rt).
//
// The file has v 64 and n 32. Each position p from 1 to 63 has the clauses [p{32} q{1}] and
// [p{32} q{2}], where q is position 64; the clause [q{1,2}] is last and leaves q the room {1,2}. A
// value of p below 32 makes the first of p's clauses cut q's room to {1}, and the second is then
// dead. So the values 1 to 31 of each of the 63 positions fail one after another, each in a box of
// its own, and every search of the other values is a call within the last: 1953 splits, 1953 dead
// ends, and 1954 calls open at once, where no file can reach more than 1985. Then every p is 32, and
// q is 1. The first box takes 2 rounds: the first cuts q's room, and the second nothing.
//
// The file `stdout` beside src/ has the line that is right. It follows from this account; a search
// written from the text of 01 and 02 alone, with sets of values in place of masks, gave the same.
#![tactic(auto)]

mod file;
mod line;
mod stack;

use line::Line;

fn main(rt: HostRuntime) {
    let input = file::deep();
    let mut answer = [0; 64];
    let reply = stack::plan_in_little_stack(&rt, &input, &mut answer);
    let line = Line {
        reply,
        answer: &answer,
    };
    // A line that cannot be written is passed over.
    let _ = println!(rt; "{line}");
}
