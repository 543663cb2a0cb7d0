// The registers of one process by value, and the process records in the lent state memory.
//
// An instruction loads its record's registers as a whole, works on them by value and saves them: what `load`, the methods and the
// saves do is said by the definitions of `rules`, for every state that the memory holds. Nobody above this crate counts bytes of a record.
// Inner functions ask plain facts of their caller: the memory's length, a number below its limit, a count with room.

#![tactic(auto)]

mod listed;
mod process;
mod records;
mod slots;
mod values;

pub use listed::{any_over, any_repeated};
pub use process::Popped;
pub use records::{
    Status, clear, environment_value, load, lowest_free_record, place_of, save_running,
    save_waiting, status_of,
};
use rules::{ENVIRONMENT_DEPTH, SLOT_COUNT, STACK_DEPTH};
pub use slots::{in_set, overlap};

// The registers of one process.
#[derive(Clone, Copy)]
pub struct Registers {
    pub place: u16,
    pub stack_count: u8,
    pub environment_count: u8,
    // 0 for an empty slot, else the end's number and one: the bytes of the state memory, loaded and saved as they are; `end_in` makes an
    // Option of one
    pub slots: [u8; SLOT_COUNT],
    // top first, zeros behind the count: arrays of fixed length with their counts, since the machine allocates nothing
    pub stack: [i32; STACK_DEPTH],
    // newest first, zeros behind the count
    pub environment: [i32; ENVIRONMENT_DEPTH],
}
