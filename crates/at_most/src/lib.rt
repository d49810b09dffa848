// "At most k of these positions take a value in the set" over the caller's own bytes: looked at, and
// settled or not. The contracts cite the search of the crate `steps`.
#![tactic(auto)]

pub mod look;
pub mod rule;
pub mod settle;
