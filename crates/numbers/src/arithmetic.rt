// add, mul, leq: two values are popped and one is pushed. 5 with fewer than two values; 9 where a sum or a product is outside 32 bits.
ghost use Rattle.std.specs.Prelude.{◌≡◌, ◌<◌, ◌≤◌, length};
ghost use Rattle.rules.specs.Limits.{record_count, stack_depth};
ghost use Rattle.rules.specs.Numbers.{answer_of, record_number, reply_to};
ghost use Rattle.rules.specs.State.{State, Registers as Process, running, set_record};
ghost use Rattle.rules.specs.Causes.{top, below};
ghost use Rattle.rules.specs.Layout.{state_size, layout};
ghost use Rattle.rules.specs.Calls.{layout_or};
ghost use Rattle.rules.specs.Promise.{Promise};
ghost use Rattle.rules.specs.Instruction.{add as add_of, mul as mul_of, leq as leq_of};
ghost use Rattle.keeping.specs.Demand3.{SoundMemory};
ghost use Rattle.keeping.proofs.LayoutLaws.{Sized};
ghost use Rattle.registers.specs.Registers.{registers_of, combined, moved_to};
ghost use Rattle.stepping.specs.Stepped.{Stepped};
ghost use Rattle.numbers.specs.Checked.{made_of, makes, checked};

use crate::wide::{at_most, product, sum};
use registers::Registers;
use rules::{Record, Refusal};

// What is made of the two values on top. The three are named, since the promise of `make` goes by the name; with a closure it would have to
// say what that answers for each pair of values.
#[derive(Clone, Copy)]
enum Made {
    Sum,
    Product,
    Order,
}

// The top and the value below it, in 64 bits: their sum, their product, or 1 if the top is at most the other, else 0.
fn value_of(made: Made, held: Registers) -> i64
    ensures { (g : Process) → held ≡ registers_of g → result ≡ made_of made (top g) (below g) }
{
    let x = held.top();
    let y = held.below();
    match made {
        Made::Sum => sum(x, y),
        Made::Product => product(x, y),
        Made::Order => at_most(x, y),
    }
}

// The two values on top become v, and the record goes on at the next place.
fn combine(m: &mut [u8], r: Record, held: Registers, v: i32, next: u16)
    requires { (length m.old ≡ state_size) × (record_number r < record_count) × (1 < held.stack_count) }
    ensures { (st : State) (g : Process) → Sized st → m.old ≡ layout st → length g.stack ≤ stack_depth
        → held ≡ registers_of g → m.new ≡ layout (set_record st (record_number r) (running (moved_to (combined g v) next))) }
{
    let combined = held.combine(v);
    registers::save_running(m, r, combined.at(next));
}

// The same, or 9 where v is outside 32 bits.
fn combine_checked(
    m: &mut [u8],
    r: Record,
    held: Registers,
    v: i64,
    next: u16,
) -> Result<(), Refusal>
    requires { (length m.old ≡ state_size) × (record_number r < record_count) × (1 < held.stack_count) }
    ensures { (st : State) (g : Process) → Sized st → m.old ≡ layout st → length g.stack ≤ stack_depth
        → held ≡ registers_of g → Promise (reply_to (checked st (record_number r) next g v))
        (layout_or m.old (checked st (record_number r) next g v)) (answer_of result) m.new }
{
    let Ok(value) = i32::try_from(v) else {
        return Err(Refusal::Outside);
    };
    combine(m, r, held, value, next);
    Ok(())
}

// Two values are popped, and what is made of them is pushed: 5, 9, or the step.
fn make(m: &mut [u8], r: Record, made: Made, next: u16) -> Result<(), Refusal>
    requires { SoundMemory m.old × (record_number r < record_count) }
    ensures { Stepped m.old (record_number r) next (makes made) result m.new }
{
    let held = registers::load(m, r);
    if held.stack_count < 2 {
        return Err(Refusal::FewValues);
    }
    combine_checked(m, r, held, value_of(made, held), next)
}

pub fn add(m: &mut [u8], r: Record, next: u16) -> Result<(), Refusal>
    requires { SoundMemory m.old × (record_number r < record_count) }
    ensures { Stepped m.old (record_number r) next add_of result m.new }
{
    make(m, r, Made::Sum, next)
}

pub fn mul(m: &mut [u8], r: Record, next: u16) -> Result<(), Refusal>
    requires { SoundMemory m.old × (record_number r < record_count) }
    ensures { Stepped m.old (record_number r) next mul_of result m.new }
{
    make(m, r, Made::Product, next)
}

pub fn leq(m: &mut [u8], r: Record, next: u16) -> Result<(), Refusal>
    requires { SoundMemory m.old × (record_number r < record_count) }
    ensures { Stepped m.old (record_number r) next leq_of result m.new }
{
    make(m, r, Made::Order, next)
}
