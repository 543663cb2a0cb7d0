// S5: a waiting record stands at a get, hcase or fork naming that end's slot, and none of the causes 4, 6, 8, 10, 11 holds there.
ghost use Rattle.std.specs.Prelude.{◌≡◌, true, List, ℕ, ◌<◌, length};
ghost use Rattle.rules.specs.Limits.{record_count, end_count};
ghost use Rattle.rules.specs.State.{Registers as Process, record_at, slot_at};
ghost use Rattle.rules.specs.Refusal.{is_done};
ghost use Rattle.rules.specs.Causes.{names};
ghost use Rattle.rules.specs.EndStep.{wait_of, only_if};
ghost use Rattle.rules.specs.Sound.{RegistersWithin};
ghost use Rattle.rules.specs.SoundTest.{every, stands_named, stands_in, stands_test};
ghost use Rattle.rules.specs.Layout.{state_size, view};
ghost use Rattle.rules.specs.Numbers.{answer_of, slot_number, end_number, record_number};
ghost use Rattle.code.specs.Meaning.{instruction_of};
ghost use Rattle.registers.specs.Registers.{registers_of};
ghost use Rattle.canonical.specs.Canonical.{canonical_bytes};

use crate::lasts::{Last, last_of};
use code::{Instruction, decode};
use registers::{Registers, Status};
use rules::{END_COUNT, End, Record, Refusal, Slot};

// Slot c holds end e.
fn holds(held: Registers, c: Slot, e: End) -> bool
    ensures { (g : Process) → RegistersWithin g → held ≡ registers_of g → result ≡ names (slot_at g (slot_number c)) (end_number e) }
{
    held.end_in(c) == Some(e)
}

// The slot holds the end, and no own cause holds.
fn stands_held(there: bool, own: Result<(), Refusal>) -> bool
    ensures { result ≡ only_if there (is_done (answer_of own)) }
{
    there && own.is_ok()
}

// The registers wait for end e at instruction i.
fn stands_named(held: Registers, e: End, i: Instruction) -> bool
    ensures { (g : Process) (code : List ℕ) (place next : ℕ) → RegistersWithin g → held ≡ registers_of g
        → result ≡ stands_named (end_number e) g (instruction_of code place i) (wait_of (instruction_of code place i) next) }
{
    match i {
        Instruction::Get(c) => stands_held(holds(held, c, e), causes::get(held, c)),
        Instruction::Fork {
            c,
            a,
            first,
            b,
            second,
        } => stands_held(
            holds(held, c, e),
            causes::fork(held, c, a, first, b, second),
        ),
        Instruction::Hcase(c, _) => stands_held(holds(held, c, e), causes::hcase(held, c)),
        _ => false,
    }
}

// Record r waits, and it stands where it waits for end e.
fn stands_at(m: &[u8], e: End, r: Record) -> bool
    requires m_len { (length m.now ≡ state_size) × (canonical_bytes m.now ≡ true) × (record_number r < record_count) }
    ensures { result ≡ stands_in (view m.now).code (end_number e) (record_at (view m.now) (record_number r)) }
{
    let Status::Waiting = registers::status_of(m, r) else {
        return false;
    };
    let held = registers::load(m, r);
    let place = held.place as usize;
    let Some(decoded) = decode(memory::code(m), place) else {
        return false;
    };
    stands_named(held, e, decoded.instruction)
}

// A record that the last item of end e's queue names stands at that end.
fn last_stands(m: &[u8], e: u8) -> bool
    requires m_len { (length m.now ≡ state_size) × (canonical_bytes m.now ≡ true) × (e < end_count) }
    ensures { result ≡ stands_test (view m.now) e }
{
    let Some(Last::Wait(r)) = last_of(m, e as usize) else {
        return true;
    };
    stands_at(m, End(e), r)
}

pub fn waiting_records_stand(m: &[u8]) -> bool
    requires { (length m.now ≡ state_size) × (canonical_bytes m.now ≡ true) }
    ensures { result ≡ every (stands_test (view m.now)) end_count }
{
    (0..END_COUNT as u8).all(|e| last_stands(m, e))
}
