// The seventeen forms of document 01's table: from the first byte to the instruction with its operands. Each function asks that the fixed
// part lies in the code; what is listed behind it is tested here.
ghost use Rattle.std.specs.Prelude.{◌≡◌, ◌+◌, ◌≤◌, ◌<◌, length};
ghost use Rattle.rules.specs.Instruction.{byte_at, place_at, size_of, form_of, instruction_at, decode as decoded_by_rules};
ghost use Rattle.rules.specs.Instruction.{split_name, fork_name, plug_name};
ghost use Rattle.code.specs.Meaning.{instruction_of, meaning};

use crate::operands::{byte_at, place_at, signed_at, slot_at};
use crate::{Branch, Decoded, Instruction};

fn branch_at(code: &[u8], place: usize, k: usize) -> Branch
    requires { place + (k + 2) < length code.now }
    ensures { (result.set ≡ byte_at code.now place k) × (result.place ≡ place_at code.now place (k + 1)) }
{
    Branch {
        set: byte_at(code, place, k),
        place: place_at(code, place, k + 1),
    }
}

// A split, a fork and a plug read three operands or more: each has a function of its own, since each builds another case of the enum.
fn split_at(code: &[u8], place: usize) -> Instruction
    requires { place + 4 ≤ length code.now }
    ensures { instruction_of code.now place result ≡ instruction_at code.now place split_name }
{
    Instruction::Split {
        c: slot_at(code, place, 1),
        a: slot_at(code, place, 2),
        b: slot_at(code, place, 3),
    }
}

fn fork_at(code: &[u8], place: usize) -> Instruction
    requires { place + 10 ≤ length code.now }
    ensures { instruction_of code.now place result ≡ instruction_at code.now place fork_name }
{
    Instruction::Fork {
        c: slot_at(code, place, 1),
        a: slot_at(code, place, 2),
        first: branch_at(code, place, 3),
        b: slot_at(code, place, 6),
        second: branch_at(code, place, 7),
    }
}

fn plug_at(code: &[u8], place: usize) -> Instruction
    requires { place + 8 ≤ length code.now }
    ensures { instruction_of code.now place result ≡ instruction_at code.now place plug_name }
{
    Instruction::Plug {
        a: slot_at(code, place, 1),
        first: branch_at(code, place, 2),
        second: branch_at(code, place, 5),
    }
}

// What is answered for an instruction and the place after it.
fn found(instruction: Instruction, next: usize) -> Option<Decoded>
    ensures { result ≡ Some (record { instruction = instruction; next = next }) }
{
    Some(Decoded { instruction, next })
}

// An hcase whose k places would be listed from `listed` on.
fn hcase_at(code: &[u8], place: usize, listed: usize) -> Option<Decoded>
    requires { (byte_at code.now place 0 ≡ 0x19) × (listed ≡ place + 3) × (listed ≤ length code.now) }
    ensures { meaning code.now place result ≡ decoded_by_rules code.now place }
{
    let k = byte_at(code, place, 2);
    if k == 0 {
        return None;
    }
    if rules::CASES_LIMIT < k as usize {
        return None;
    }
    if code.len() - listed < 2 * (k as usize) {
        return None;
    }
    found(
        Instruction::Hcase(slot_at(code, place, 1), k),
        listed + 2 * (k as usize),
    )
}

// A run whose j slots would be listed from `listed` on.
fn run_at(code: &[u8], place: usize, listed: usize) -> Option<Decoded>
    requires { (byte_at code.now place 0 ≡ 0x1A) × (listed ≡ place + 5) × (listed ≤ length code.now) }
    ensures { meaning code.now place result ≡ decoded_by_rules code.now place }
{
    let j = byte_at(code, place, 4);
    if code.len() - listed < j as usize {
        return None;
    }
    found(
        Instruction::Run(place_at(code, place, 1), byte_at(code, place, 3), j),
        listed + j as usize,
    )
}

// The instruction that begins with this first byte, and whose fixed part ends before `next`. Each arm builds the whole answer: one that is
// put together behind the match costs a step of a run 4 % more instructions.
pub fn decode_fixed(code: &[u8], place: usize, first: u8, next: usize) -> Option<Decoded>
    requires first_byte { first ≡ byte_at code.now place 0 }
    requires next_place { (next ≡ place + size_of (form_of first)) × (next ≤ length code.now) }
    ensures { meaning code.now place result ≡ decoded_by_rules code.now place }
{
    match first {
        0x01 => found(Instruction::Cst(signed_at(code, place, 1)), next),
        0x02 => found(Instruction::Access(byte_at(code, place, 1)), next),
        0x03 => found(Instruction::Store, next),
        0x04 => found(Instruction::Add, next),
        0x05 => found(Instruction::Mul, next),
        0x06 => found(Instruction::Leq, next),
        0x10 => found(Instruction::Put(slot_at(code, place, 1)), next),
        0x11 => found(Instruction::Get(slot_at(code, place, 1)), next),
        0x12 => found(split_at(code, place), next),
        0x13 => found(fork_at(code, place), next),
        0x14 => found(plug_at(code, place), next),
        0x15 => found(Instruction::Close(slot_at(code, place, 1)), next),
        0x16 => found(Instruction::Halt(slot_at(code, place, 1)), next),
        0x17 => found(
            Instruction::Same(slot_at(code, place, 1), slot_at(code, place, 2)),
            next,
        ),
        0x18 => found(
            Instruction::Hput(slot_at(code, place, 1), byte_at(code, place, 2)),
            next,
        ),
        0x19 => hcase_at(code, place, next),
        0x1A => run_at(code, place, next),
        _ => None,
    }
}
