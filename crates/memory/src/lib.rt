// The lent state memory as a whole: its length, the start state, and the code in it. What stands where is docs/STATE.md and, as a
// definition, `layout` of `rules`; records are worked on by `registers`, ends by `ends`.

#![tactic(auto)]

ghost use Rattle.std.specs.Prelude.{◌≡◌, [], ◌≤◌, length};
ghost use Rattle.rules.specs.Limits.{code_limit};
ghost use Rattle.rules.specs.Bytes.{bytes_of, number_at, flat, pad};
ghost use Rattle.rules.specs.State.{start};
ghost use Rattle.rules.specs.Layout.{state_size, cell_size, queues_at, layout, view};
ghost use Rattle.words.specs.Parts.{put_at};
ghost use Rattle.memory.specs.Sections.{cell_count};

use rules::offsets::{CELL_SIZE, CODE_AT, FREE_AT, QUEUES_AT, RECORDS_AT};

// Cells of all queues, 8 for each end.
const CELL_COUNT: usize = 512;

// All ends free: a bit for each.
const ALL_FREE: u64 = 18446744073709551615;

// Zeros in front, up to an index.
fn clear(m: &mut [u8], to: usize)
    requires { to ≤ length m.old }
    ensures { m.new ≡ put_at m.old 0 (pad to 0 []) }
{
    m[..to].fill(0);
}

// The cells of all queues, one after the other.
fn put_cells(m: &mut [u8], cells: &[u64])
    requires { (length m.old ≡ state_size) × (length cells.now ≡ cell_count) }
    ensures { m.new ≡ put_at m.old queues_at (flat (bytes_of cell_size) cells.now) }
{
    for (k, cell) in cells.iter().enumerate() {
        words::put64(m, QUEUES_AT + CELL_SIZE * k, *cell);
    }
}

// The start state and no code: record 0 runs at place 0, all ends are free, the 512 queue cells are zero.
pub fn start(m: &mut [u8])
    requires { length m.old ≡ state_size }
    ensures { m.new ≡ layout (start []) }
{
    let cells = [0; CELL_COUNT];
    clear(m, QUEUES_AT);
    put_cells(m, &cells);
    m[RECORDS_AT] = 1;
    words::put64(m, FREE_AT, ALL_FREE);
}

// The loaded code, as a part of the memory.
pub fn code(m: &[u8]) -> &[u8]
    requires { (length m.now ≡ state_size) × (number_at 2 m.now 0 ≤ code_limit) }
    ensures { result.now ≡ (view m.now).code }
{
    let size = usize::from(words::get16(m, 0));
    &m[CODE_AT..CODE_AT + size]
}

// The length of a code that has been put where the code stands.
pub fn put_code_length(m: &mut [u8], size: usize)
    requires { (length m.old ≡ state_size) × (size ≤ code_limit) }
    ensures { m.new ≡ put_at m.old 0 (bytes_of 2 size) }
{
    words::put16(m, 0, size as u16);
}
