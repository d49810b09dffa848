// What one field that is no clause leaves to be split, over the caller's own bytes. The contracts
// cite the search of the crate `steps`.
#![tactic(auto)]

mod equality;
pub mod kinds;
mod meeting;
mod starting;
