// The word of free ends, and the partner, the queue count and the queue cells of one end: written where they stand in the state memory,
// and cells and counts read. Each write leaves all other bytes as they were.
ghost use Rattle.std.specs.Prelude.{◌≡◌, ◌+◌, ◌≤◌, ◌<◌, length};
ghost use Rattle.rules.specs.Limits.{end_count, queue_depth};
ghost use Rattle.rules.specs.Numbers.{end_number};
ghost use Rattle.rules.specs.Layout.{state_size};
ghost use Rattle.ends.specs.Sections.{with_word, with_partner_byte, eight_counts_in, with_count};
ghost use Rattle.ends.specs.Sections.{cell_at, cell_in, with_cell, cells_in, with_cells};

use rules::offsets::{CELL_SIZE, COUNTS_AT, FREE_AT, PARTNERS_AT, QUEUES_AT};
use rules::{End, QUEUE_DEPTH};
use std::array;
use words::{get64, put8, put64};

// Where cell `index` of an end's queue stands.
fn cell_at(end: End, index: u8) -> usize
    requires { (end_number end < end_count) × (index < queue_depth) }
    ensures { result ≡ cell_at (end_number end) index }
{
    QUEUES_AT + CELL_SIZE * (QUEUE_DEPTH * (end.0 as usize) + index as usize)
}

// The counts of an end and of the seven after it.
pub fn get_eight_counts(m: &[u8], end: End) -> u64
    requires { (length m.now ≡ state_size) × (end_number end + 8 ≤ end_count) }
    ensures { result ≡ eight_counts_in m.now (end_number end) }
{
    get64(m, COUNTS_AT + end.0 as usize)
}

pub fn get_cell(m: &[u8], end: End, index: u8) -> u64
    requires { (length m.now ≡ state_size) × (end_number end < end_count) × (index < queue_depth) }
    ensures { result ≡ cell_in m.now (end_number end) index }
{
    get64(m, cell_at(end, index))
}

pub fn put_word(m: &mut [u8], word: u64)
    requires { length m.old ≡ state_size }
    ensures { m.new ≡ with_word m.old word }
{
    put64(m, FREE_AT, word);
}

pub fn put_partner(m: &mut [u8], end: End, partner: u8)
    requires { (length m.old ≡ state_size) × (end_number end < end_count) }
    ensures { m.new ≡ with_partner_byte m.old (end_number end) partner }
{
    put8(m, PARTNERS_AT + end.0 as usize, partner);
}

pub fn put_count(m: &mut [u8], end: End, count: u8)
    requires { (length m.old ≡ state_size) × (end_number end < end_count) }
    ensures { m.new ≡ with_count m.old (end_number end) count }
{
    put8(m, COUNTS_AT + end.0 as usize, count);
}

pub fn put_cell(m: &mut [u8], end: End, index: u8, cell: u64)
    requires { (length m.old ≡ state_size) × (end_number end < end_count) × (index < queue_depth) }
    ensures { m.new ≡ with_cell m.old (end_number end) index cell }
{
    put64(m, cell_at(end, index), cell);
}

// All cells of an end's queue, head first: eight with a count beside them, as the state memory has them.
pub fn get_cells(m: &[u8], end: End) -> [u64; 8]
    requires { (length m.now ≡ state_size) × (end_number end < end_count) }
    ensures { result ≡ cells_in m.now (end_number end) }
{
    array::from_fn(|index| get_cell(m, end, index as u8))
}

pub fn put_cells(m: &mut [u8], end: End, cells: [u64; 8])
    requires { (length m.old ≡ state_size) × (end_number end < end_count) }
    ensures { m.new ≡ with_cells m.old (end_number end) cells }
{
    for index in 0..QUEUE_DEPTH {
        put_cell(m, end, index as u8, cells[index]);
    }
}
