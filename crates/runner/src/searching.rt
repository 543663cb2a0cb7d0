// The step that a run makes next: the first of all positions, from one on and going around, that can step. A position that cannot step
// leaves the memory as it was, so it is simply asked. Most positions are not worth asking, since no process runs there or a queue of the
// pair is empty: they are passed over, ends with nothing queued eight at a time.
ghost use Rattle.std.specs.Prelude.{◌≡◌, false, ℕ, ◌+◌, ◌-◌, ◌<◌, ◌≤◌, length};
ghost use Rattle.rules.specs.Limits.{record_count, end_count, position_count};
ghost use Rattle.rules.specs.Numbers.{end_number};
ghost use Rattle.rules.specs.Refusal.{is_done};
ghost use Rattle.rules.specs.Ask.{ask_end};
ghost use Rattle.rules.specs.Run.{next_position, first_of, next_step};
ghost use Rattle.rules.specs.Layout.{state_size, view};
ghost use Rattle.rules.specs.Promise.{Promise};
ghost use Rattle.keeping.specs.Demand3.{SoundMemory};
ghost use Rattle.runner.specs.Runs.{PassedTo, stepped_by, memory_by};

use registers::Status;
use rules::{End, POSITION_COUNT, RECORD_COUNT, Record, Refusal};

// The position after p, going around.
pub fn position_after(p: u32) -> u32
    requires { p < position_count }
    ensures { result ≡ next_position p }
{
    if p + 1 == POSITION_COUNT as u32 {
        return 0;
    }
    p + 1
}

// The first record from one on that runs; the first end's position where none does, from which the search goes on.
fn next_running(m: &[u8], from: u32) -> u32
    requires { (length m.now ≡ state_size) × (from ≤ record_count) × SoundMemory m.now }
    ensures { PassedTo (view m.now) from result record_count }
{
    for p in from..RECORD_COUNT as u32 {
        if registers::status_of(m, Record(p as u8)) == Status::Running {
            return p;
        }
    }
    RECORD_COUNT as u32
}

// How many ends, from this one on, cannot step, as one look at the queues of its pair shows; none where both have an item.
fn passed_from(m: &[u8], end: End) -> u8
    requires { (length m.now ≡ state_size) × (end_number end < end_count) × SoundMemory m.now }
    ensures within { end_number end + result ≤ end_count }
    ensures passed { (i : ℕ) → i < result → is_done (ask_end (view m.now) (end_number end + i)) ≡ false }
{
    let empty = ends::empty_from(m, end);
    if 0 < empty {
        return empty;
    }
    if ends::queued(m, ends::partner(m, end)) == 0 {
        return 1;
    }
    0
}

// The position of the first end from one on whose pair has two queues with an item; the number of positions where there is none. A `for`
// would go on by one end, and this loop goes on by as many as one look passes over.
fn next_pair(m: &[u8], from: u32) -> u32
    requires { (length m.now ≡ state_size) × (record_count ≤ from) × (from ≤ position_count) × SoundMemory m.now }
    ensures { PassedTo (view m.now) from result position_count }
{
    let mut p = from;
    while p < POSITION_COUNT as u32 {
        let passed = passed_from(m, End((p - RECORD_COUNT as u32) as u8));
        if passed == 0 {
            return p;
        }
        p += passed as u32;
    }
    p
}

// The first position from one on that is worth asking.
fn next_candidate(m: &[u8], from: u32) -> u32
    requires { (length m.now ≡ state_size) × (from ≤ position_count) × SoundMemory m.now }
    ensures { PassedTo (view m.now) from result position_count }
{
    if RECORD_COUNT as u32 <= from {
        return next_pair(m, from);
    }
    let p = next_running(m, from);
    if p < RECORD_COUNT as u32 {
        return p;
    }
    next_pair(m, p)
}

// The step of the first position from one on and below another that can step: that position, if there is one. The loop goes from candidate
// to candidate, and so counts nothing.
fn step_between(m: &mut [u8], from: u32, to: u32) -> Option<u32>
    requires m_len { (length m.old ≡ state_size) × (from ≤ to) × (to ≤ position_count) }
    requires sound_memory { SoundMemory m.old }
    ensures { Promise (stepped_by (first_of (to - from) (view m.old) from))
        (memory_by m.old (first_of (to - from) (view m.old) from)) result m.new }
{
    let mut p = next_candidate(m, from);
    while p < to {
        if let Ok(()) = asking::step(m, p) {
            return Some(p);
        }
        p = next_candidate(m, p + 1);
    }
    None
}

// The step of the first of all positions, from one on and going around, that can step: that position, if there is one.
pub fn step_from(m: &mut [u8], position: u32) -> Option<u32>
    requires m_len { (length m.old ≡ state_size) × (position < position_count) }
    requires sound_memory { SoundMemory m.old }
    ensures { Promise (stepped_by (next_step (view m.old) position))
        (memory_by m.old (next_step (view m.old) position)) result m.new }
{
    // no `or_else`: its contract says nothing of the memory that the closure would change
    match step_between(m, position, POSITION_COUNT as u32) {
        Some(p) => Some(p),
        None => step_between(m, 0, position),
    }
}
