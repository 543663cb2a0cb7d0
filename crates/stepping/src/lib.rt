// What the functions that step one record share: the translation of a local slot to an end, and the code's slice. The form of their
// promise is in specs/, the laws that each of them cites are in proofs/.

#![tactic(auto)]

ghost use Rattle.std.specs.Prelude.{◌≡◌};
ghost use Rattle.rules.specs.State.{Registers as Process, end_in};
ghost use Rattle.rules.specs.Layout.{view};
ghost use Rattle.rules.specs.Sound.{RegistersWithin};
ghost use Rattle.rules.specs.Numbers.{slot_number, end_number};
ghost use Rattle.keeping.specs.Demand3.{SoundMemory};
ghost use Rattle.registers.specs.Registers.{registers_of};

use registers::Registers;
use rules::{END_COUNT, End, Slot};

// The translation of a local slot to an end. An empty slot stands for no end: the answer is then the number of ends, as `end_in` of the
// rules has it. It is no Option, since each caller has refused an empty slot before, and would have a case that cannot come.
pub fn own_end(held: Registers, c: Slot) -> End
    ensures { (g : Process) → RegistersWithin g → held ≡ registers_of g → end_number result ≡ end_in g (slot_number c) }
{
    held.end_in(c).unwrap_or(End(END_COUNT as u8))
}

// The code of a memory known to be sound.
pub fn code(m: &[u8]) -> &[u8]
    requires { SoundMemory m.now }
    ensures { result.now ≡ (view m.now).code }
{
    memory::code(m)
}
