// put, hput, close and halt: an item is appended to the queue of slot c's end, and the record runs on, or is free.
ghost use Rattle.std.specs.Prelude.{ℕ, ◌<◌};
ghost use Rattle.rules.specs.Limits.{record_count};
ghost use Rattle.rules.specs.Numbers.{record_number, slot_number};
ghost use Rattle.rules.specs.Instruction.{put as put_of, close as close_of, halt as halt_of, hput as hput_of};
ghost use Rattle.keeping.specs.Demand3.{SoundMemory};
ghost use Rattle.stepping.specs.Stepped.{Stepped};

use crate::queue;
use ends::Item;
use rules::{Record, Refusal, Slot};

// The top is popped and appended.
pub fn put(m: &mut [u8], r: Record, c: Slot, next: u16) -> Result<(), Refusal>
    requires { SoundMemory m.old × (record_number r < record_count) }
    ensures { Stepped m.old (record_number r) next (put_of (slot_number c)) result m.new }
{
    let held = registers::load(m, r);
    causes::put(held, c)?;
    let popped = held.pop();
    queue::append(m, held, c, Item::Value(popped.value))?;
    let rest = popped.registers;
    registers::save_running(m, r, rest.at(next));
    Ok(())
}

// The slot is emptied behind its close.
pub fn close(m: &mut [u8], r: Record, c: Slot, next: u16) -> Result<(), Refusal>
    requires { SoundMemory m.old × (record_number r < record_count) }
    ensures { Stepped m.old (record_number r) next (close_of (slot_number c)) result m.new }
{
    let held = registers::load(m, r);
    causes::close(held, c)?;
    queue::append(m, held, c, Item::Close)?;
    let emptied = held.empty_slot(c);
    registers::save_running(m, r, emptied.at(next));
    Ok(())
}

// The record is freed, so it goes on at no place: the contract says it for every `next`.
pub fn halt(m: &mut [u8], r: Record, c: Slot) -> Result<(), Refusal>
    requires { SoundMemory m.old × (record_number r < record_count) }
    ensures { (next : ℕ) → Stepped m.old (record_number r) next (halt_of (slot_number c)) result m.new }
{
    let held = registers::load(m, r);
    causes::halt(held, c)?;
    queue::append(m, held, c, Item::Close)?;
    registers::clear(m, r);
    Ok(())
}

// A handle is appended.
pub fn hput(m: &mut [u8], r: Record, c: Slot, n: u8, next: u16) -> Result<(), Refusal>
    requires { SoundMemory m.old × (record_number r < record_count) }
    ensures { Stepped m.old (record_number r) next (hput_of (slot_number c) n) result m.new }
{
    let held = registers::load(m, r);
    causes::hput(held, c)?;
    queue::append(m, held, c, Item::Handle(n))?;
    registers::save_running(m, r, held.at(next));
    Ok(())
}
