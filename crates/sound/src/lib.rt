// Whether an input is a sound rule file: every field is tested in 01's order, in the caller's own bytes.
// The contracts cite specs/Promise.antt.
#![tactic(auto)]

pub mod check;
mod starts;
