// One case for each row of document 01's table: the instruction's own function, under its name in `numbers`, `channels` or `processes`.
ghost use Rattle.std.specs.Prelude.{◌≡◌, length};
ghost use Rattle.rules.specs.Layout.{state_size, view};
ghost use Rattle.rules.specs.Numbers.{record_number};
ghost use Rattle.keeping.specs.Demand3.{SoundMemory};
ghost use Rattle.code.specs.Meaning.{instruction_of};
ghost use Rattle.stepping.specs.Stepped.{Stepped, RunsAt};
ghost use Rattle.asking.specs.Stepped.{ListedIn};

use code::Instruction;
use rules::{Record, Refusal};

// Instruction i, decoded at a place of the code, is asked of record r; `next` is the place after it. A case for
// each row of document 01's table: the proofs go by the case, which no table of functions would tell them.
pub fn step_instruction(
    m: &mut [u8],
    r: Record,
    at: usize,
    i: Instruction,
    next: u16,
) -> Result<(), Refusal>
    requires m_len { length m.old ≡ state_size }
    requires sound_memory { SoundMemory m.old × RunsAt m.old (record_number r) × ListedIn (view m.old).code at i }
    ensures { Stepped m.old (record_number r) next (instruction_of (view m.old).code at i) result m.new }
{
    match i {
        Instruction::Cst(v) => numbers::cst(m, r, v, next),
        Instruction::Access(n) => numbers::access(m, r, n, next),
        Instruction::Store => numbers::store(m, r, next),
        Instruction::Add => numbers::add(m, r, next),
        Instruction::Mul => numbers::mul(m, r, next),
        Instruction::Leq => numbers::leq(m, r, next),
        Instruction::Put(c) => channels::put(m, r, c, next),
        Instruction::Get(c) => channels::get(m, r, c),
        Instruction::Split { c, a, b } => channels::split(m, r, c, a, b, next),
        Instruction::Fork {
            c,
            a,
            first,
            b,
            second,
        } => channels::fork(m, r, c, a, first, b, second),
        Instruction::Plug { a, first, second } => processes::plug(m, r, a, first, second),
        Instruction::Close(c) => channels::close(m, r, c, next),
        Instruction::Halt(c) => channels::halt(m, r, c),
        Instruction::Same(c, d) => processes::same(m, r, c, d),
        Instruction::Hput(c, n) => channels::hput(m, r, c, n, next),
        Instruction::Hcase(c, _) => channels::hcase(m, r, c),
        Instruction::Run(place, n, j) => processes::run(m, r, at, place, n, j),
    }
}
