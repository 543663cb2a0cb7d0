// run: the record goes on at a place, its values become the environment, and it keeps the listed slots under new numbers. The slots are
// listed in the code, behind the instruction's fixed part.
ghost use Rattle.std.specs.Prelude.{◌≡◌, ℕ, ◌+◌, ◌≤◌, length};
ghost use Rattle.rules.specs.Limits.{environment_depth};
ghost use Rattle.rules.specs.State.{Registers as Process};
ghost use Rattle.rules.specs.Sound.{RegistersWithin};
ghost use Rattle.rules.specs.Instruction.{slots_at, run as run_of};
ghost use Rattle.rules.specs.Layout.{view};
ghost use Rattle.rules.specs.Numbers.{answer_of, record_number};
ghost use Rattle.keeping.specs.Demand3.{SoundMemory};
ghost use Rattle.registers.specs.Registers.{registers_of, called};
ghost use Rattle.causes.specs.Own.{own_reply};
ghost use Rattle.stepping.specs.Stepped.{Stepped, RunsAt};

use registers::Registers;
use rules::{Record, Refusal};

// The length of the fixed part.
const FIXED_SIZE: usize = 5;

// The j slots listed behind the run at a place of the code.
fn listed(m: &[u8], at: usize, j: u8) -> &[u8]
    requires { SoundMemory m.now × (at + 5 + j ≤ length (view m.now).code) }
    ensures { result.now ≡ slots_at (view m.now).code at 5 j }
{
    let code = stepping::code(m);
    let from = at + FIXED_SIZE;
    &code[from..from + j as usize]
}

// 5, 8 or 10, or nothing to refuse.
fn refusal(m: &[u8], held: Registers, at: usize, n: u8, j: u8) -> Result<(), Refusal>
    requires { SoundMemory m.now × (at + 5 + j ≤ length (view m.now).code) }
    ensures { (g : Process) (place : ℕ) → RegistersWithin g → held ≡ registers_of g
        → answer_of result ≡ own_reply g (run_of place n (slots_at (view m.now).code at 5 j)) }
{
    causes::run(held, n, listed(m, at, j))
}

// The registers of the callee.
fn callee(m: &[u8], held: Registers, at: usize, place: u16, n: u8, j: u8) -> Registers
    requires sound_memory { SoundMemory m.now × (at + 5 + j ≤ length (view m.now).code) }
    requires n_bound { (n ≤ held.stack_count) × (n ≤ environment_depth) }
    ensures { (g : Process) → RegistersWithin g → held ≡ registers_of g
        → result ≡ registers_of (called g place n (slots_at (view m.now).code at 5 j)) }
{
    held.called(place, n, listed(m, at, j))
}

// The run stands at `at` in the code and lists j slots.
pub fn run(m: &mut [u8], r: Record, at: usize, place: u16, n: u8, j: u8) -> Result<(), Refusal>
    requires { SoundMemory m.old × RunsAt m.old (record_number r) × (at + 5 + j ≤ length (view m.old).code) }
    ensures { (next : ℕ) → Stepped m.old (record_number r) next
        (run_of place n (slots_at (view m.old).code at 5 j)) result m.new }
{
    let held = registers::load(m, r);
    refusal(m, held, at, n, j)?;
    let after = callee(m, held, at, place, n, j);
    registers::save_running(m, r, after);
    Ok(())
}
