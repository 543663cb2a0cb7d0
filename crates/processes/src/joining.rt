// same: the ends in slots c and d go out of use, their partners become partners of each other with their queues as they are, and the record
// becomes free.
ghost use Rattle.std.specs.Prelude.{◌≡◌, false, ℕ, ◌<◌, length};
ghost use Rattle.rules.specs.Limits.{end_count};
ghost use Rattle.rules.specs.State.{State, Registers as Process, is_free_end, end_at, end_in};
ghost use Rattle.rules.specs.Instruction.{same as same_of};
ghost use Rattle.rules.specs.RecordStep.{joined};
ghost use Rattle.rules.specs.Layout.{state_size, layout, view};
ghost use Rattle.rules.specs.Numbers.{answer_of, record_number, slot_number, end_number};
ghost use Rattle.keeping.specs.Demand3.{SoundMemory};
ghost use Rattle.keeping.proofs.LayoutLaws.{Sized};
ghost use Rattle.stepping.specs.Stepped.{Stepped, RunsAt};
ghost use Rattle.processes.specs.Joinable.{shared_reply, Joinable};

use rules::{End, Record, Refusal, Slot};

// 12 or 14, or nothing to refuse; x and y are the ends in c and d.
fn refusal(m: &[u8], c: Slot, d: Slot, x: End, y: End) -> Result<(), Refusal>
    requires { (length m.now ≡ state_size) × (end_number x < end_count) × (end_number y < end_count) }
    ensures { (st : State) (g : Process) → Sized st → m.now ≡ layout st → end_number x ≡ end_in g (slot_number c)
        → end_number y ≡ end_in g (slot_number d) → is_free_end (end_at st (end_number x)) ≡ false
        → answer_of result ≡ shared_reply st g (same_of (slot_number c) (slot_number d)) }
{
    if c == d {
        return Err(Refusal::SameTwice); // one slot twice
    }
    if ends::partner(m, x) == y {
        return Err(Refusal::SameTwice); // two partners
    }
    if 0 < ends::queued(m, x) {
        return Err(Refusal::OwnQueueNotEmpty);
    }
    if 0 < ends::queued(m, y) {
        return Err(Refusal::OwnQueueNotEmpty);
    }
    Ok(())
}

fn join(m: &mut [u8], x: End, y: End)
    requires m_len { length m.old ≡ state_size }
    requires sound_memory { SoundMemory m.old × Joinable (view m.old) (end_number x) (end_number y) }
    ensures { m.new ≡ layout (joined (view m.old) (end_number x) (end_number y)) }
{
    let u = ends::partner(m, x);
    let v = ends::partner(m, y);
    ends::free(m, x);
    ends::free(m, y);
    ends::set_partner(m, u, v);
    ends::set_partner(m, v, u);
}

pub fn same(m: &mut [u8], r: Record, c: Slot, d: Slot) -> Result<(), Refusal>
    requires m_len { length m.old ≡ state_size }
    requires sound_memory { SoundMemory m.old × RunsAt m.old (record_number r) }
    ensures { (next : ℕ) → Stepped m.old (record_number r) next (same_of (slot_number c) (slot_number d)) result
        m.new }
{
    let held = registers::load(m, r);
    causes::same(held, c, d)?;
    let x = stepping::own_end(held, c);
    let y = stepping::own_end(held, d);
    refusal(m, c, d, x, y)?;
    join(m, x, y);
    registers::clear(m, r);
    Ok(())
}
