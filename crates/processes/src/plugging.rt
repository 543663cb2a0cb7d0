// plug: two free ends become a pair, and a second process comes into being; the first goes on with one end of the pair in slot a, the
// second begins with the other, each with the slots of its set.
ghost use Rattle.std.specs.Prelude.{◌≡◌, ℕ, ◌<◌, length};
ghost use Rattle.rules.specs.Limits.{record_count, end_count, slot_count};
ghost use Rattle.rules.specs.State.{State, Registers as Process, running, record_at, set_record};
ghost use Rattle.rules.specs.Instruction.{plug as plug_of};
ghost use Rattle.rules.specs.RecordStep.{lowest_free, after, branch};
ghost use Rattle.rules.specs.Layout.{state_size, layout, view};
ghost use Rattle.rules.specs.Numbers.{record_number, slot_number, end_number};
ghost use Rattle.keeping.specs.Demand3.{SoundMemory};
ghost use Rattle.keeping.proofs.LayoutLaws.{Sized};
ghost use Rattle.registers.specs.Registers.{registers_of};
ghost use Rattle.stepping.specs.Stepped.{Stepped, RunsAt};
ghost use Rattle.processes.specs.Spare.{Spare};

use code::Branch;
use ends::word::{count, lowest, without_lowest};
use registers::Registers;
use rules::{End, Record, Refusal, Slot};

// One of the two processes: a record runs with the slots of its set and an end in slot a.
fn begin(m: &mut [u8], r: Record, held: Registers, a: Slot, to: Branch, e: End)
    requires { (length m.old ≡ state_size) × (record_number r < record_count) × (end_number e < end_count) }
    ensures { (st : State) (g : Process) → Sized st → m.old ≡ layout st → length g.slots ≡ slot_count
        → held ≡ registers_of g
        → m.new
        ≡ layout (set_record st (record_number r) (running (branch g (slot_number a) to.set to.place (end_number e)))) }
{
    registers::save_running(m, r, held.branch(a, to.set, to.place, e));
}

// Both processes, with two ends and a record that are free.
fn divide(
    m: &mut [u8],
    r: Record,
    held: Registers,
    a: Slot,
    first: Branch,
    second: Branch,
    word: u64,
    new: Record,
)
    requires m_len { length m.old ≡ state_size }
    requires sound_memory { SoundMemory m.old × RunsAt m.old (record_number r) × Spare (view m.old) word (record_number new) }
    ensures { (next : ℕ) (g : Process) → record_at (view m.old) (record_number r) ≡ running g → held ≡ registers_of g
        → m.new ≡ layout (after (view m.old) (record_number r) next g (lowest_free (view m.old))
        (plug_of (slot_number a) first.set first.place second.set second.place)) }
{
    let p = lowest(word);
    let q = lowest(without_lowest(word));
    ends::pair(m, p, q);
    begin(m, r, held, a, first, p);
    begin(m, new, held, a, second, q);
}

// 15 with fewer than two free ends or with no free record; both are looked at before anything is taken.
pub fn plug(m: &mut [u8], r: Record, a: Slot, first: Branch, second: Branch) -> Result<(), Refusal>
    requires { SoundMemory m.old × RunsAt m.old (record_number r) }
    ensures { (next : ℕ) → Stepped m.old (record_number r) next
        (plug_of (slot_number a) first.set first.place second.set second.place) result m.new }
{
    let held = registers::load(m, r);
    causes::plug(held, a, first, second)?;
    let word = ends::free_word(m);
    if count(word) < 2 {
        return Err(Refusal::NoneFree);
    }
    let Some(new) = registers::lowest_free_record(m) else {
        return Err(Refusal::NoneFree);
    };
    divide(m, r, held, a, first, second, word, new);
    Ok(())
}
