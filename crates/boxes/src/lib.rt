// One box of rooms, shrunk over the caller's own bytes. The contracts cite the search of the crate
// `steps`.
#![tactic(auto)]

pub mod equality;
pub mod shrink;
