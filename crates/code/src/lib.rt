// Document 01's decoder: the code is read forward from a place, and the answer is one instruction with the place after it, or none (4).
// What an answer means is in specs/Meaning.antt.

#![tactic(auto)]

ghost use Rattle.std.specs.Prelude.{◌≡◌};
ghost use Rattle.rules.specs.Instruction.{decode as decoded_by_rules};
ghost use Rattle.code.specs.Meaning.{meaning};

use lengths::fixed_length;
use operands::byte_at;
use rules::Slot;

mod lengths; // lengths.rt: the length of an instruction's fixed part by its first byte
mod operands; // operands.rt: bytes, places and signed numbers in the code
mod forms; // forms.rt: the seventeen forms, each with its operands
mod listed; // listed.rt: the places of an hcase and the slots of a run
pub mod reader; // reader.rt: a struct that holds the code and a place

pub use lengths::{LENGTHS, length_table};
pub use listed::{case_place, listed_slot};

// What a branch of a fork or a plug goes on with: its set of slots, bit i for slot i, and its place.
#[derive(Clone, Copy)]
pub struct Branch {
    pub set: u8,
    pub place: u16,
}

// One case for each row of document 01's table. The places of an hcase and the slots of a run stay in the code.
#[derive(Clone, Copy)]
pub enum Instruction {
    Cst(i32),
    Access(u8),
    Store,
    Add,
    Mul,
    Leq,
    Put(Slot),
    Get(Slot),
    Split {
        c: Slot,
        a: Slot,
        b: Slot,
    },
    Fork {
        c: Slot,
        a: Slot,
        first: Branch,
        b: Slot,
        second: Branch,
    },
    Plug {
        a: Slot,
        first: Branch,
        second: Branch,
    },
    Close(Slot),
    Halt(Slot),
    Same(Slot, Slot),
    Hput(Slot, u8),
    // the slot, and how many places are listed
    Hcase(Slot, u8),
    // the place, how many values are taken, and how many slots are listed
    Run(u16, u8, u8),
}

// An instruction, and the place after it.
#[derive(Clone, Copy)]
pub struct Decoded {
    pub instruction: Instruction,
    pub next: usize,
}

// The instruction at a place with the place after it, if there is one.
pub fn decode(code: &[u8], place: usize) -> Option<Decoded>
    ensures { meaning code.now place result ≡ decoded_by_rules code.now place }
{
    if code.len() <= place {
        return None;
    }
    let first = byte_at(code, place, 0);
    let size = fixed_length(first) as usize;
    if code.len() - place < size {
        return None;
    }
    forms::decode_fixed(code, place, first, place + size)
}
