// The process records in the lent state memory. Each contract speaks of every state st whose layout the memory holds: an answer is read
// off st, and a write makes the memory the layout of st with that record anew, so that all other bytes stay.
ghost use Rattle.std.specs.Prelude.{◌≡◌, [], ◌∷◌, ◌++◌, ◌+◌, ◌*◌, ◌≤◌, ◌<◌, pos, length, get_or, IfSome};
ghost use Rattle.rules.specs.Limits.{record_count, environment_depth};
ghost use Rattle.rules.specs.Bytes.{bytes_of};
ghost use Rattle.rules.specs.State.{State, Registers as Process, free_record, running, waiting, record_at, set_record};
ghost use Rattle.rules.specs.State.{is_free_record, lowest_free_record};
ghost use Rattle.rules.specs.Layout.{record_size, records_at, state_size, registers_bytes, layout};
ghost use Rattle.rules.specs.Sound.{RecordWithin};
ghost use Rattle.rules.specs.Numbers.{record_number};
ghost use Rattle.words.specs.Parts.{put_at};
ghost use Rattle.keeping.proofs.LayoutLaws.{Sized};
ghost use Rattle.registers.specs.Registers.{registers_of, registers_in, status_of, status_byte, record_or};

use crate::{Registers, slots, values};
use rules::offsets::{
    ENVIRONMENT_COUNT_FROM, ENVIRONMENT_FROM, PLACE_FROM, RECORD_SIZE, RECORDS_AT, SLOTS_FROM,
    STACK_COUNT_FROM, STACK_FROM, VALUE_SIZE,
};
use rules::{CODE_LIMIT, ENVIRONMENT_DEPTH, RECORD_COUNT, Record, SLOT_COUNT, STACK_DEPTH};

// What a record is.
#[derive(Clone, Copy, PartialEq, Eq)]
pub enum Status {
    Free,
    Running,
    Waiting,
}

// Where record r stands.
fn start_of(r: Record) -> usize
    ensures { result ≡ records_at + record_size * record_number r }
{
    let n = r.0;
    RECORDS_AT + RECORD_SIZE * n as usize
}

// What record r is.
pub fn status_of(m: &[u8], r: Record) -> Status
    requires { (length m.now ≡ state_size) × (record_number r < record_count) }
    ensures { (st : State) → Sized st → m.now ≡ layout st → result ≡ status_of (record_at st (record_number r)) }
{
    match words::get8(m, start_of(r)) {
        0 => Status::Free,
        1 => Status::Running,
        _ => Status::Waiting,
    }
}

// The byte that says what a record is.
fn status_byte(status: Status) -> u8
    ensures { result ≡ status_byte status }
{
    match status {
        Status::Free => 0,
        Status::Running => 1,
        Status::Waiting => 2,
    }
}

// The place of record r.
pub fn place_of(m: &[u8], r: Record) -> u16
    requires { (length m.now ≡ state_size) × (record_number r < record_count) }
    ensures { (st : State) → Sized st → RecordWithin (record_at st (record_number r)) → m.now ≡ layout st
        → result ≡ (registers_in (record_at st (record_number r))).place }
{
    words::get16(m, start_of(r) + PLACE_FROM)
}

// The registers of record r.
pub fn load(m: &[u8], r: Record) -> Registers
    requires { (length m.now ≡ state_size) × (record_number r < record_count) }
    ensures { (st : State) → Sized st → RecordWithin (record_at st (record_number r)) → m.now ≡ layout st
        → result ≡ registers_of (registers_in (record_at st (record_number r))) }
{
    let at = start_of(r);
    let place = words::get16(m, at + PLACE_FROM);
    let stack_count = words::get8(m, at + STACK_COUNT_FROM);
    let environment_count = words::get8(m, at + ENVIRONMENT_COUNT_FROM);
    let slots = slots::read(m, at + SLOTS_FROM);
    let stack = values::read(m, at + STACK_FROM);
    let environment = values::read(m, at + ENVIRONMENT_FROM);
    Registers {
        place,
        stack_count,
        environment_count,
        slots,
        stack,
        environment,
    }
}

// Value n of record r's environment, counted from the newest.
pub fn environment_value(m: &[u8], r: Record, n: u8) -> i32
    requires m_len { (length m.now ≡ state_size) × (record_number r < record_count) }
    requires n_lt_environment_depth { n < environment_depth }
    ensures { (st : State) → Sized st → RecordWithin (record_at st (record_number r)) → m.now ≡ layout st
        → result ≡ get_or (registers_in (record_at st (record_number r))).environment n (pos 0) }
{
    words::get_signed(m, start_of(r) + ENVIRONMENT_FROM + VALUE_SIZE * n as usize)
}

// The numbers at the front of a record.
fn write_numbers(m: &mut [u8], at: usize, status: Status, x: Registers)
    requires { at + 5 ≤ length m.old }
    ensures { m.new ≡ put_at m.old at
        (status_byte status ∷ (bytes_of 2 x.place ++ (x.stack_count ∷ x.environment_count ∷ []))) }
{
    words::put8(m, at, status_byte(status));
    words::put16(m, at + PLACE_FROM, x.place);
    words::put8(m, at + STACK_COUNT_FROM, x.stack_count);
    words::put8(m, at + ENVIRONMENT_COUNT_FROM, x.environment_count);
}

// Record r gets a status and registers.
fn save(m: &mut [u8], r: Record, status: Status, x: Registers)
    requires { (length m.old ≡ state_size) × (record_number r < record_count) }
    ensures { (g : Process) → x ≡ registers_of g
        → m.new ≡ put_at m.old (records_at + record_size * record_number r) (status_byte status ∷ registers_bytes g) }
{
    let at = start_of(r);
    write_numbers(m, at, status, x);
    let held = x.slots;
    slots::write(m, at + SLOTS_FROM, held);
    let stack = x.stack;
    values::write(m, at + STACK_FROM, stack);
    let environment = x.environment;
    values::write(m, at + ENVIRONMENT_FROM, environment);
}

// Record r runs with these registers. It and the next are two functions, since one that took a `Status` would be asked for registers of a
// free record, which has none.
pub fn save_running(m: &mut [u8], r: Record, x: Registers)
    requires { (length m.old ≡ state_size) × (record_number r < record_count) }
    ensures { (st : State) (g : Process) → Sized st → m.old ≡ layout st → x ≡ registers_of g
        → m.new ≡ layout (set_record st (record_number r) (running g)) }
{
    save(m, r, Status::Running, x);
}

// Record r waits with these registers.
pub fn save_waiting(m: &mut [u8], r: Record, x: Registers)
    requires { (length m.old ≡ state_size) × (record_number r < record_count) }
    ensures { (st : State) (g : Process) → Sized st → m.old ≡ layout st → x ≡ registers_of g
        → m.new ≡ layout (set_record st (record_number r) (waiting g)) }
{
    save(m, r, Status::Waiting, x);
}

// Record r becomes free, all of it zero.
pub fn clear(m: &mut [u8], r: Record)
    requires { (length m.old ≡ state_size) × (record_number r < record_count) }
    ensures { (st : State) → Sized st → m.old ≡ layout st
        → m.new ≡ layout (set_record st (record_number r) free_record) }
{
    let zeros = [0; RECORD_SIZE];
    words::copy(&zeros, m, start_of(r));
}

// Record r is free.
fn is_free(m: &[u8], r: Record) -> bool
    requires { (length m.now ≡ state_size) × (record_number r < record_count) }
    ensures { (st : State) → Sized st → m.now ≡ layout st → result ≡ is_free_record (record_at st (record_number r)) }
{
    matches!(status_of(m, r), Status::Free)
}

// The lowest free record, if one is free.
pub fn lowest_free_record(m: &[u8]) -> Option<Record>
    requires { length m.now ≡ state_size }
    ensures within { IfSome result (λ r. record_number r < record_count) }
    ensures lowest { (st : State) → Sized st → m.now ≡ layout st → record_or record_count result ≡ lowest_free_record st }
{
    (0..RECORD_COUNT as u8)
        .find(|k| is_free(m, Record(*k)))
        .map(Record)
}
