// The planner: the one call that people rely on, with its reply; and the most rounds that it can report.
#![tactic(auto)]

pub mod plan;
pub mod rounds;
mod start;
