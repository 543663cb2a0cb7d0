// Instructions on numbers: cst, access, store here; add, mul, leq in arithmetic.rt. Each tests its refusals in the order of document 01's
// numbers, then loads the registers, changes them by value and saves them. The memory is known to be sound.

#![tactic(auto)]

ghost use Rattle.std.specs.Prelude.{◌<◌};
ghost use Rattle.rules.specs.Limits.{record_count};
ghost use Rattle.rules.specs.Numbers.{record_number};
ghost use Rattle.rules.specs.Instruction.{cst as cst_of, access as access_of, store as store_of};
ghost use Rattle.keeping.specs.Demand3.{SoundMemory};
ghost use Rattle.stepping.specs.Stepped.{Stepped};

pub use arithmetic::{add, leq, mul};
use rules::{Record, Refusal};

mod arithmetic;
mod wide;

// v is pushed.
pub fn cst(m: &mut [u8], r: Record, v: i32, next: u16) -> Result<(), Refusal>
    requires { SoundMemory m.old × (record_number r < record_count) }
    ensures { Stepped m.old (record_number r) next (cst_of v) result m.new }
{
    let held = registers::load(m, r);
    if 16 <= held.stack_count {
        return Err(Refusal::TooManyValues);
    }
    let pushed = held.push(v);
    registers::save_running(m, r, pushed.at(next));
    Ok(())
}

// Environment value n, counted from the newest, is pushed. It is read straight from the memory.
pub fn access(m: &mut [u8], r: Record, n: u8, next: u16) -> Result<(), Refusal>
    requires { SoundMemory m.old × (record_number r < record_count) }
    ensures { Stepped m.old (record_number r) next (access_of n) result m.new }
{
    let held = registers::load(m, r);
    if 16 <= held.stack_count {
        return Err(Refusal::TooManyValues);
    }
    if held.environment_count <= n {
        return Err(Refusal::NoEnvironmentPlace);
    }
    let v = registers::environment_value(m, r, n);
    let pushed = held.push(v);
    registers::save_running(m, r, pushed.at(next));
    Ok(())
}

// The top goes to the front of the environment.
pub fn store(m: &mut [u8], r: Record, next: u16) -> Result<(), Refusal>
    requires { SoundMemory m.old × (record_number r < record_count) }
    ensures { Stepped m.old (record_number r) next store_of result m.new }
{
    let held = registers::load(m, r);
    if held.stack_count < 1 {
        return Err(Refusal::FewValues);
    }
    if 16 <= held.environment_count {
        return Err(Refusal::TooManyValues);
    }
    let stored = held.store();
    registers::save_running(m, r, stored.at(next));
    Ok(())
}
