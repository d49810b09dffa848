// What the program prints: `reply` has the text of a reply, and `answer` goes from the bytes of a file
// to the text.
#![tactic(auto)]

pub mod answer;
pub mod reply;
