// Asking a record, an end or a position to step, on a memory known to be sound. What is promised is in specs/Stepped.antt, for an end in
// `meetings`. Nothing is tested here but what the number asked for makes necessary.

#![tactic(auto)]

mod dispatch; // dispatch.rt: each instruction by its function
mod record; // record.rt: a record is asked, then a position

pub use meetings::step_end;
pub use record::{step, step_record};
