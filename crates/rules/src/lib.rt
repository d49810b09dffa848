// The rule file: reads fields out of the caller's own bytes. No copy of the rules is made. The
// contracts cite specs/Reading.antt (what the bytes say).
#![tactic(auto)]

pub mod atoms;
pub mod fault;
pub mod field;
pub mod fields;
