// get, hcase and fork: a wait is appended to the queue of slot c's end, and the record becomes waiting at its present place. They differ
// in their refusals only, and none of them looks at the place after the instruction: the contracts say it for every `next`.
ghost use Rattle.std.specs.Prelude.{List, ℕ, ◌<◌};
ghost use Rattle.rules.specs.Limits.{record_count};
ghost use Rattle.rules.specs.State.{Registers as Process};
ghost use Rattle.rules.specs.Numbers.{record_number, slot_number};
ghost use Rattle.rules.specs.Instruction.{get as get_of, fork as fork_of, hcase as hcase_of};
ghost use Rattle.keeping.specs.Demand3.{SoundMemory};
ghost use Rattle.stepping.specs.Stepped.{Stepped};
ghost use Rattle.channels.specs.Appending.{HoldsEnd, Runs, Waited};

use crate::queue;
use code::Branch;
use ends::Item;
use registers::Registers;
use rules::{Record, Refusal, Slot};

// 13, or record r waits on the queue of slot c's end.
fn wait_at(m: &mut [u8], r: Record, held: Registers, c: Slot) -> Result<(), Refusal>
    requires holds_end { HoldsEnd m.old held (slot_number c) }
    requires r_bound { record_number r < record_count }
    ensures { (g : Process) → Runs m.old (record_number r) held g (slot_number c)
        → Waited m.old (record_number r) g (slot_number c) result m.new }
{
    queue::append(m, held, c, Item::Wait(r))?;
    registers::save_waiting(m, r, held);
    Ok(())
}

pub fn get(m: &mut [u8], r: Record, c: Slot) -> Result<(), Refusal>
    requires { SoundMemory m.old × (record_number r < record_count) }
    ensures { (next : ℕ) → Stepped m.old (record_number r) next (get_of (slot_number c)) result m.new }
{
    let held = registers::load(m, r);
    causes::get(held, c)?;
    wait_at(m, r, held, c)
}

// Whatever places are listed.
pub fn hcase(m: &mut [u8], r: Record, c: Slot) -> Result<(), Refusal>
    requires { SoundMemory m.old × (record_number r < record_count) }
    ensures { (next : ℕ) (places : List ℕ)
        → Stepped m.old (record_number r) next (hcase_of (slot_number c) places) result m.new }
{
    let held = registers::load(m, r);
    causes::hcase(held, c)?;
    wait_at(m, r, held, c)
}

pub fn fork(
    m: &mut [u8],
    r: Record,
    c: Slot,
    a: Slot,
    first: Branch,
    b: Slot,
    second: Branch,
) -> Result<(), Refusal>
    requires { SoundMemory m.old × (record_number r < record_count) }
    ensures { (next : ℕ) → Stepped m.old (record_number r) next
        (fork_of (slot_number c) (slot_number a) first.set first.place (slot_number b) second.set second.place)
        result m.new }
{
    let held = registers::load(m, r);
    causes::fork(held, c, a, first, b, second)?;
    wait_at(m, r, held, c)
}
