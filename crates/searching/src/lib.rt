// The search of a sound file: a reply, the search of a box, which calls itself on both halves of a
// split, and the search from the first box on.
#![tactic(auto)]

pub mod first;
pub mod reply;
pub mod search;
