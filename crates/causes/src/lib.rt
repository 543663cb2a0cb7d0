// The refusals 5 to 11 of the instructions that name slots. They look at the record's registers only, so each function takes the registers
// by value and no memory: a step asks them before it looks at what is shared, and the soundness test asks them of a waiting record.
// A function is named after its instruction, and tests the rows of document 01's table in their order.

#![tactic(auto)]

mod channels; // channels.rt: put, get, split, fork, close, halt, hput, hcase
mod processes; // processes.rt: plug, same, run
mod rows; // rows.rt: the test of one row

pub use channels::{close, fork, get, halt, hcase, hput, put, split};
pub use processes::{plug, run, same};
