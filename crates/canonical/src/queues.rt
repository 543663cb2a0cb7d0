// An end: whether it is free, its partner, its count and its queue's 64 bytes.
ghost use Rattle.std.specs.Prelude.{◌≡◌, ◌≤◌, length, take};
ghost use Rattle.rules.specs.Limits.{queue_depth};
ghost use Rattle.rules.specs.Layout.{queue_size, split_cell};
ghost use Rattle.canonical.specs.Canonical.{last_fits, is_datum, is_last, cells_in, canonical_cells, canonical_queue, canonical_end};

use crate::unused::all_zero;
use rules::offsets::{CELL_SIZE, QUEUE_SIZE};
use rules::{END_COUNT, QUEUE_DEPTH, RECORD_COUNT};
use words::get64;

// A value of 32 bits, or a handle.
fn is_datum(cell: u64) -> bool
    ensures { result ≡ is_datum cell }
{
    let payload = cell / 256;
    match cell % 256 {
        1 => payload < 4294967296,
        2 => payload < 256,
        _ => false,
    }
}

// A split with two ends.
fn is_split(payload: u64) -> bool
    ensures { result ≡ last_fits split_cell payload }
{
    if END_COUNT as u64 <= payload % 256 {
        return false;
    }
    payload / 256 < END_COUNT as u64
}

// A split with two ends, a close, or a wait naming a record.
fn is_last(cell: u64) -> bool
    ensures { result ≡ is_last cell }
{
    let payload = cell / 256;
    match cell % 256 {
        3 => is_split(payload),
        4 => payload == 0,
        5 => payload < RECORD_COUNT as u64,
        _ => false,
    }
}

// The cells in use: values and handles, then at most one last item.
fn cells_are_canonical(queue: &[u8], count: usize) -> bool
    requires { (length queue.now ≡ queue_size) × (count ≤ queue_depth) }
    ensures { result ≡ canonical_cells (take count (cells_in queue.now)) }
{
    for i in 0..count {
        let cell = get64(queue, CELL_SIZE * i);
        if !is_datum(cell) {
            if i + 1 < count {
                return false;
            }
            return is_last(cell);
        }
    }
    true
}

// An end in use.
fn queue_is_canonical(count: u8, queue: &[u8]) -> bool
    requires { length queue.now ≡ queue_size }
    ensures { result ≡ canonical_queue count queue.now }
{
    let items = usize::from(count);
    if QUEUE_DEPTH < items {
        return false;
    }
    if !cells_are_canonical(queue, items) {
        return false;
    }
    let behind = CELL_SIZE * items;
    all_zero(&queue[behind..QUEUE_SIZE])
}

pub fn end_is_canonical(free: bool, partner: u8, count: u8, queue: &[u8]) -> bool
    requires { length queue.now ≡ queue_size }
    ensures { result ≡ canonical_end free partner count queue.now }
{
    if !free {
        return queue_is_canonical(count, queue);
    }
    if partner != 0 {
        return false;
    }
    if count != 0 {
        return false;
    }
    all_zero(queue)
}
