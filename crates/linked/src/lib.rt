// The planner and the set arithmetic of the front panel for programs in C or Rust: each function of
// `planning` and `panel` that is marked `#[unsafe(no_mangle)]` is one of `include/oarloom.h`. No function
// has a `requires`, so any argument that the header allows is fine.
#![tactic(auto)]

pub mod panel;
pub mod planning;
