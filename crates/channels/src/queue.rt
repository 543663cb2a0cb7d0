// An item appended to the queue of the end that a slot holds: 13, or the memory is the layout of the state with that item.
ghost use Rattle.std.specs.Prelude.{ℕ};
ghost use Rattle.rules.specs.State.{Registers as Process};
ghost use Rattle.rules.specs.Numbers.{slot_number};
ghost use Rattle.ends.specs.Items.{item_of};
ghost use Rattle.channels.specs.Appending.{HoldsEnd, Runs, Appended};

use ends::Item;
use registers::Registers;
use rules::{QUEUE_DEPTH, Refusal, Slot};

// 13, or an item is appended to the queue of slot c's end.
pub fn append(m: &mut [u8], held: Registers, c: Slot, item: Item) -> Result<(), Refusal>
    requires { HoldsEnd m.old held (slot_number c) }
    ensures { (r : ℕ) (g : Process) → Runs m.old r held g (slot_number c)
        → Appended m.old g (slot_number c) (item_of item) result m.new }
{
    let end = stepping::own_end(held, c);
    if QUEUE_DEPTH <= ends::queued(m, end) as usize {
        return Err(Refusal::QueueFull);
    }
    ends::append(m, end, item);
    Ok(())
}
