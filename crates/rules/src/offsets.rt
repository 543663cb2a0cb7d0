// Where the parts of the state memory stand, and how many bytes each has: docs/STATE.md, and as a definition specs/Layout.antt.
use crate::{
    CODE_LIMIT, END_COUNT, ENVIRONMENT_DEPTH, QUEUE_DEPTH, RECORD_COUNT, SLOT_COUNT, STACK_DEPTH,
};

// The code, behind its length.
pub const CODE_AT: usize = 2;

// The records.
pub const RECORDS_AT: usize = CODE_AT + CODE_LIMIT;

// Within a record, behind its status: its place, its two counts, its slots, its stack and its environment.
pub const PLACE_FROM: usize = 1;

pub const STACK_COUNT_FROM: usize = 3;

pub const ENVIRONMENT_COUNT_FROM: usize = 4;

pub const SLOTS_FROM: usize = 5;

pub const VALUE_SIZE: usize = 4;

pub const STACK_FROM: usize = SLOTS_FROM + SLOT_COUNT;

pub const ENVIRONMENT_FROM: usize = STACK_FROM + VALUE_SIZE * STACK_DEPTH;

pub const RECORD_SIZE: usize = ENVIRONMENT_FROM + VALUE_SIZE * ENVIRONMENT_DEPTH;

// The word of free ends, the partners, the counts of items, and the queues.
pub const FREE_AT: usize = RECORDS_AT + RECORD_SIZE * RECORD_COUNT;

pub const PARTNERS_AT: usize = FREE_AT + 8;

pub const COUNTS_AT: usize = PARTNERS_AT + END_COUNT;

pub const QUEUES_AT: usize = COUNTS_AT + END_COUNT;

pub const CELL_SIZE: usize = 8;

pub const QUEUE_SIZE: usize = CELL_SIZE * QUEUE_DEPTH;

// All of it. Each function that is lent a state memory asks for this length by a clause, or for a sound memory. An array can't
// say it instead: std promises of the one that TryFrom makes of a lent slice nothing about what is left in the slice.
pub const STATE_SIZE: usize = QUEUES_AT + QUEUE_SIZE * END_COUNT;
