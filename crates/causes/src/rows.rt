// The tests of single rows, each under the name that it has in the table of causes of `rules`, and rows that several instructions have.
ghost use Rattle.std.specs.Prelude.{◌≡◌, [], ◌∷◌, ◌<◌, OnOk};
ghost use Rattle.rules.specs.Limits.{slot_count};
ghost use Rattle.rules.specs.State.{Registers as Process};
ghost use Rattle.rules.specs.Slots.{over as over_of, emptied, not_together};
ghost use Rattle.rules.specs.Causes.{fewer as fewer_of, stack_full, stack_not_empty, empty as empty_of, taken as taken_of, others_held};
ghost use Rattle.rules.specs.Causes.{others_than_both_held};
ghost use Rattle.rules.specs.Sound.{RegistersWithin};
ghost use Rattle.rules.specs.Numbers.{answer_of, slot_number};
ghost use Rattle.registers.specs.Registers.{registers_of};
ghost use Rattle.causes.specs.Own.{rows_reply};

use registers::Registers;
use rules::{Refusal, SLOT_COUNT, STACK_DEPTH, Slot};

// 5: fewer stack values than the n needed.
pub fn fewer(held: Registers, n: u8) -> bool
    ensures { (g : Process) → RegistersWithin g → held ≡ registers_of g → result ≡ fewer_of n g }
{
    held.stack_count < n
}

// 6: the stack would pass its depth.
pub fn stack_full(held: Registers) -> bool
    ensures { (g : Process) → RegistersWithin g → held ≡ registers_of g → result ≡ stack_full g }
{
    STACK_DEPTH <= held.stack_count as usize
}

// 8: slot c is over the last slot's number.
pub fn over(c: Slot) -> bool
    ensures { result ≡ over_of (slot_number c) }
{
    let n = c.0;
    SLOT_COUNT <= n as usize
}

// 8: slot c is empty.
pub fn empty(held: Registers, c: Slot) -> bool
    ensures { (g : Process) → RegistersWithin g → held ≡ registers_of g → result ≡ empty_of (slot_number c) g }
{
    held.end_in(c).is_none()
}

// 8: slot c is over the last slot's number, or empty.
pub fn held_slot(held: Registers, c: Slot) -> Result<(), Refusal>
    ensures { (g : Process) → RegistersWithin g → held ≡ registers_of g
        → answer_of result ≡ rows_reply ((8, over_of (slot_number c)) ∷ (8, empty_of (slot_number c) g) ∷ []) }
{
    if over(c) || empty(held, c) {
        return Err(Refusal::WrongSlot);
    }
    Ok(())
}

// 8, split and fork: c, a or b is over the last slot's number, or c is empty.
pub fn three_slots(held: Registers, c: Slot, a: Slot, b: Slot) -> Result<(), Refusal>
    ensures within { OnOk result ((slot_number a < slot_count) × (slot_number b < slot_count)) }
    ensures is { (g : Process) → RegistersWithin g → held ≡ registers_of g
        → answer_of result ≡ rows_reply ((8, over_of (slot_number c)) ∷ (8, over_of (slot_number a)) ∷ (8, over_of (slot_number b))
        ∷ (8, empty_of (slot_number c) g) ∷ []) }
{
    if over(c) || over(a) || over(b) || empty(held, c) {
        return Err(Refusal::WrongSlot);
    }
    Ok(())
}

// 8, split: a holds an end and isn't c.
pub fn taken(held: Registers, a: Slot, c: Slot) -> bool
    ensures { (g : Process) → RegistersWithin g → held ≡ registers_of g → result ≡ taken_of (slot_number a) (slot_number c) g }
{
    if a == c {
        return false;
    }
    !empty(held, a)
}

// 10, halt: others than c held.
pub fn others_held(held: Registers, c: Slot) -> bool
    ensures { (g : Process) → RegistersWithin g → held ≡ registers_of g → result ≡ others_held (slot_number c) g }
{
    held.empty_slot(c).any_held()
}

// 10, same: others than c, d held.
pub fn others_than_both_held(held: Registers, c: Slot, d: Slot) -> bool
    ensures { (g : Process) → RegistersWithin g → held ≡ registers_of g
        → result ≡ others_than_both_held (slot_number c) (slot_number d) g }
{
    held.empty_slot(c).empty_slot(d).any_held()
}

// 10, fork: the sets m and n together are not exactly the held slots but c.
pub fn others_not_together(held: Registers, c: Slot, m: u8, n: u8) -> bool
    ensures { (g : Process) → RegistersWithin g → held ≡ registers_of g
        → result ≡ not_together m n (emptied g.slots (slot_number c)) }
{
    held.empty_slot(c).not_together(m, n)
}

// 11: stack not empty.
pub fn empty_stack(held: Registers) -> Result<(), Refusal>
    ensures { (g : Process) → RegistersWithin g → held ≡ registers_of g → answer_of result ≡ rows_reply ((11, stack_not_empty g) ∷ []) }
{
    if 0 < held.stack_count {
        return Err(Refusal::StackNotEmpty);
    }
    Ok(())
}
