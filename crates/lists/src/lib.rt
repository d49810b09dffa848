// What is said of lists (specs/), and the laws of lists, of tests and of buffers (proofs/). There is no
// code here.
#![tactic(auto)]
