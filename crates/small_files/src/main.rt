// Tries the planner on many small rule files, systematic and pseudo-random, sound and damaged. Every plan,
// and that there is none, is compared with an enumeration of all assignments. It prints how many files there
// were and how many were of demand 3's special kind, how many replies of each kind, the sums of what the
// replies say, a checksum of all replies, and how many differences there were; the bytes of the first file
// with a difference come before that.
//
// The enumeration, and the tests whether a file is sound and of the special kind, are written from 01 and 02
// alone and share nothing with the planner but the bytes. The file `stdout` beside src/ has the lines that
// are right. It was made by other means, by a model that was written from 01 and 02: it makes the same files
// and the same calls, and for each call the refusal, or the splits and the dead ends of the search and the
// rounds of its first box, from sets of values.
//
// The sums stay right where an error in one reply makes up for an error in another. So a checksum
// takes in the number, the place, the splits, the dead ends and the rounds of each reply, in the order
// of the calls: one number that differs changes it, and so do two that are exchanged.
#![tactic(auto)]

mod asking;
mod buffer;
mod chance;
mod compare;
mod damage;
mod drawn;
mod limits;
mod meaning;
mod reading;
mod rule_file;
mod special;
mod systematic;
mod tally;
mod trying;
mod values;
mod writing;

use tally::Tally;

fn main(rt: HostRuntime) {
    let mut tally = Tally::new(rt.stdout());
    trying::all(&mut tally);
    limits::all(&mut tally);
    tally.print();
}
