// The instructions on channels, each on a memory known to be sound. Each loads the registers, tests its refusals in the order of document
// 01's numbers, 5 to 11 by `causes`, 13 and 15 by what is shared, and then stores.

#![tactic(auto, using(keeping::proofs::Memories::memory_length))]

mod queue; // queue.rt: an item appended to the queue of the end that a slot holds
mod sending; // sending.rt: put, close, halt, hput
mod splitting; // splitting.rt: split
mod waiting; // waiting.rt: get, fork, hcase

pub use sending::{close, halt, hput, put};
pub use splitting::split;
pub use waiting::{fork, get, hcase};
