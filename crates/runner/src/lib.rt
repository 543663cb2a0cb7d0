// Runs: the first position that can step is asked, searching upward and around from a position, and the run goes on from the position after
// it, until the budget is used or nothing can step. The public `run` tests the memory once; that every step keeps it sound is the
// theorem of `keeping`.

#![tactic(auto)]

mod running; // running.rt: run
mod searching; // searching.rt: the next step
mod verdict; // verdict.rt: what a state is when a run ends

pub use running::{Ran, run};
pub use searching::{position_after, step_from};
pub use verdict::{Verdict, verdict_of};
