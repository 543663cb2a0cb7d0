// What a waiting record wants: get, hcase and fork wait, nothing else does. In a sound state a record that a wait names stands at one of
// these.
ghost use Rattle.std.specs.Prelude.{◌≡◌, List, ℕ};
ghost use Rattle.rules.specs.Instruction.{decode as decoded_by_rules};
ghost use Rattle.rules.specs.EndStep.{wait_of, decoded_wait};
ghost use Rattle.rules.specs.Layout.{view};
ghost use Rattle.keeping.specs.Demand3.{SoundMemory};
ghost use Rattle.code.specs.Meaning.{instruction_of};
ghost use Rattle.meetings.specs.Wanted.{wanted_by, wanted_of};

use code::{Branch, Instruction};
use rules::Slot;

#[derive(Clone, Copy)]
pub enum Wanted {
    // a value; the record then goes on at this place
    Value(u16),
    // a handle below this number; the places stay in the code
    Handle(u8),
    // a split; its first end goes into slot a of the first branch, its second into slot b of the second
    Split {
        a: Slot,
        first: Branch,
        b: Slot,
        second: Branch,
    },
}

// What a record wants that waits at an instruction, with the place after it, if one waits there.
fn wanted_by(instruction: Instruction, next: u16) -> Option<Wanted>
    ensures { (code : List ℕ) (place : ℕ)
        → wanted_of code place result ≡ wanted_by (wait_of (instruction_of code place instruction) next) }
{
    match instruction {
        Instruction::Get(_) => Some(Wanted::Value(next)),
        Instruction::Hcase(_, k) => Some(Wanted::Handle(k)),
        Instruction::Fork {
            c: _,
            a,
            first,
            b,
            second,
        } => Some(Wanted::Split {
            a,
            first,
            b,
            second,
        }),
        _ => None,
    }
}

// What a record wants that waits at a place, if one waits there.
pub fn wanted_at(m: &[u8], place: u16) -> Option<Wanted>
    requires { SoundMemory m.now }
    ensures { wanted_of (view m.now).code place result
        ≡ wanted_by (decoded_wait (decoded_by_rules (view m.now).code place)) }
{
    let decoded = code::decode(stepping::code(m), place as usize)?;
    wanted_by(decoded.instruction, decoded.next as u16)
}
