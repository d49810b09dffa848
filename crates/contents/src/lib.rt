// The faults of a field's content: whether its length fits its kind, and its sets and positions in 01's order of
// tests, in the caller's own bytes. The contracts cite specs/Promise.antt.
#![tactic(auto)]

pub mod content;
mod naming;
