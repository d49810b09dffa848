// 01's search as definitions that compute (specs/), and the demands as theorems about them
// (proofs/). There is no code here: the crates above compute what these definitions say.
#![tactic(auto)]
