// Where step 4 splits a box of rooms under the rules of a file, over the caller's own bytes. The
// contracts cite the search of the crate `steps`.
#![tactic(auto)]

pub mod choose;
