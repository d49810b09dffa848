// The two halves of a box of rooms that is split, and the values of a plan.
#![tactic(auto)]

pub mod halves;
pub mod values;
