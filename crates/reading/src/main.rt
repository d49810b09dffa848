// Runs `check` on a list of rule files, sound and damaged at every limit, and prints a line for
// each: the file's number in the list, and then SOUND with the numbers of positions and of values,
// or REFUSED with the number of the fault and the place of its field.
//
// All but the long files come from standard input, the file `stdin` beside src/, byte for byte.
// Most start with 1, 0, 2, 3, 2: a header, 2 bytes long, for 3 positions and 2 values. The next
// field is then at place 5.
//
// The file `stdout` beside src/ has the lines that are right. It was made by other means, by a
// reader that was written from the text of 01 and 02 alone and that looks at values where the code looks at
// bits, so that it shows whether the proved contract of `check`, and the code compiled from it,
// say what was meant.
#![tactic(auto)]

mod line;
mod list;
mod long;

fn main(rt: HostRuntime) {
    list::all(&rt, &mut rt.stdin());
    long::all(&rt);
}
