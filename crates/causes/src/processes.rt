// The refusals 5 to 11 of the instructions that change which processes there are, or which code one runs: plug, same, run.
ghost use Rattle.std.specs.Prelude.{◌≡◌, ℕ};
ghost use Rattle.rules.specs.State.{Registers as Process};
ghost use Rattle.rules.specs.Instruction.{plug as plug_of, same as same_of, run as run_of};
ghost use Rattle.rules.specs.Sound.{RegistersWithin};
ghost use Rattle.rules.specs.Numbers.{answer_of, slot_number};
ghost use Rattle.registers.specs.Registers.{registers_of};
ghost use Rattle.causes.specs.Own.{own_reply};

use crate::rows;
use code::Branch;
use registers::Registers;
use rules::{Refusal, Slot};

pub fn plug(held: Registers, a: Slot, first: Branch, second: Branch) -> Result<(), Refusal>
    ensures { (g : Process) → RegistersWithin g → held ≡ registers_of g
        → answer_of result ≡ own_reply g (plug_of (slot_number a) first.set first.place second.set second.place) }
{
    if rows::over(a) || registers::in_set(first.set, a) || registers::in_set(second.set, a) {
        return Err(Refusal::WrongSlot);
    }
    if registers::overlap(first.set, second.set) || held.not_together(first.set, second.set) {
        return Err(Refusal::EndsLostOrDoubled); // in both sets, or in neither
    }
    rows::empty_stack(held)
}

pub fn same(held: Registers, c: Slot, d: Slot) -> Result<(), Refusal>
    ensures { (g : Process) → RegistersWithin g → held ≡ registers_of g
        → answer_of result ≡ own_reply g (same_of (slot_number c) (slot_number d)) }
{
    if rows::over(c) || rows::over(d) || rows::empty(held, c) || rows::empty(held, d) {
        return Err(Refusal::WrongSlot);
    }
    if rows::others_than_both_held(held, c, d) {
        return Err(Refusal::EndsLostOrDoubled); // in another slot
    }
    rows::empty_stack(held)
}

// Whatever place is named.
pub fn run(held: Registers, n: u8, listed: &[u8]) -> Result<(), Refusal>
    ensures { (g : Process) (place : ℕ) → RegistersWithin g → held ≡ registers_of g
        → answer_of result ≡ own_reply g (run_of place n listed.now) }
{
    if rows::fewer(held, n) {
        return Err(Refusal::FewValues);
    }
    if registers::any_over(listed) || held.any_empty(listed) {
        return Err(Refusal::WrongSlot);
    }
    if registers::any_repeated(listed) || held.any_held_but(listed) {
        return Err(Refusal::EndsLostOrDoubled); // listed twice, or not listed
    }
    Ok(())
}
