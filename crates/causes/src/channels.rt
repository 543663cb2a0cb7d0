// The refusals 5 to 11 of the instructions on channels: put, get, split, fork, close, halt, hput, hcase.
ghost use Rattle.std.specs.Prelude.{◌≡◌, List, ℕ};
ghost use Rattle.rules.specs.State.{Registers as Process};
ghost use Rattle.rules.specs.Instruction.{put as put_of, get as get_of, split as split_of, fork as fork_of};
ghost use Rattle.rules.specs.Instruction.{close as close_of, halt as halt_of, hput as hput_of, hcase as hcase_of};
ghost use Rattle.rules.specs.Sound.{RegistersWithin};
ghost use Rattle.rules.specs.Numbers.{answer_of, slot_number};
ghost use Rattle.registers.specs.Registers.{registers_of};
ghost use Rattle.causes.specs.Own.{own_reply};

use crate::rows;
use code::Branch;
use registers::Registers;
use rules::{Refusal, Slot};

pub fn put(held: Registers, c: Slot) -> Result<(), Refusal>
    ensures { (g : Process) → RegistersWithin g → held ≡ registers_of g → answer_of result ≡ own_reply g (put_of (slot_number c)) }
{
    if rows::fewer(held, 1) {
        return Err(Refusal::FewValues);
    }
    rows::held_slot(held, c)
}

pub fn get(held: Registers, c: Slot) -> Result<(), Refusal>
    ensures { (g : Process) → RegistersWithin g → held ≡ registers_of g → answer_of result ≡ own_reply g (get_of (slot_number c)) }
{
    if rows::stack_full(held) {
        return Err(Refusal::TooManyValues);
    }
    rows::held_slot(held, c)
}

pub fn split(held: Registers, c: Slot, a: Slot, b: Slot) -> Result<(), Refusal>
    ensures { (g : Process) → RegistersWithin g → held ≡ registers_of g
        → answer_of result ≡ own_reply g (split_of (slot_number c) (slot_number a) (slot_number b)) }
{
    rows::three_slots(held, c, a, b)?;
    if a == b || rows::taken(held, a, c) || rows::taken(held, b, c) {
        return Err(Refusal::WrongSlot);
    }
    rows::empty_stack(held)
}

pub fn fork(
    held: Registers,
    c: Slot,
    a: Slot,
    first: Branch,
    b: Slot,
    second: Branch,
) -> Result<(), Refusal>
    ensures { (g : Process) → RegistersWithin g → held ≡ registers_of g
        → answer_of result ≡ own_reply g
        (fork_of (slot_number c) (slot_number a) first.set first.place (slot_number b) second.set second.place) }
{
    rows::three_slots(held, c, a, b)?;
    if registers::in_set(first.set, a) || registers::in_set(second.set, b) {
        return Err(Refusal::WrongSlot);
    }
    if registers::overlap(first.set, second.set)
        || rows::others_not_together(held, c, first.set, second.set)
    {
        return Err(Refusal::EndsLostOrDoubled);
    }
    rows::empty_stack(held)
}

pub fn close(held: Registers, c: Slot) -> Result<(), Refusal>
    ensures { (g : Process) → RegistersWithin g → held ≡ registers_of g → answer_of result ≡ own_reply g (close_of (slot_number c)) }
{
    rows::held_slot(held, c)
}

pub fn halt(held: Registers, c: Slot) -> Result<(), Refusal>
    ensures { (g : Process) → RegistersWithin g → held ≡ registers_of g → answer_of result ≡ own_reply g (halt_of (slot_number c)) }
{
    rows::held_slot(held, c)?;
    if rows::others_held(held, c) {
        return Err(Refusal::EndsLostOrDoubled);
    }
    rows::empty_stack(held)
}

// Whatever handle is put.
pub fn hput(held: Registers, c: Slot) -> Result<(), Refusal>
    ensures { (g : Process) (n : ℕ) → RegistersWithin g → held ≡ registers_of g → answer_of result
        ≡ own_reply g (hput_of (slot_number c) n) }
{
    rows::held_slot(held, c)
}

// Whatever places are listed.
pub fn hcase(held: Registers, c: Slot) -> Result<(), Refusal>
    ensures { (g : Process) (places : List ℕ) → RegistersWithin g → held ≡ registers_of g
        → answer_of result ≡ own_reply g (hcase_of (slot_number c) places) }
{
    rows::held_slot(held, c)
}
