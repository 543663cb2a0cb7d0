// split: the four lowest free ends p, q, s, t become two pairs, p with q and s with t; a split that carries q and t is appended to the
// queue of slot c's end, c is emptied, and p and s go into a and b.
ghost use Rattle.std.specs.Prelude.{◌≡◌, false, ◌<◌, length};
ghost use Rattle.std.proofs.Math.Option.{none};
ghost use Rattle.rules.specs.Limits.{record_count, end_count, slot_count, queue_depth};
ghost use Rattle.rules.specs.State.{State, Registers as Process, registers, last, split_item, end_at, is_free_end, last_of};
ghost use Rattle.rules.specs.Slots.{emptied, holding};
ghost use Rattle.rules.specs.Instruction.{split as split_of};
ghost use Rattle.rules.specs.RecordStep.{append, paired};
ghost use Rattle.rules.specs.Layout.{state_size, layout};
ghost use Rattle.rules.specs.Numbers.{record_number, slot_number, end_number};
ghost use Rattle.keeping.specs.Demand3.{SoundMemory};
ghost use Rattle.keeping.proofs.LayoutLaws.{Sized};
ghost use Rattle.keeping.proofs.FreeLaws.{FourFree};
ghost use Rattle.registers.specs.Registers.{registers_of};
ghost use Rattle.ends.specs.Sections.{count_in};
ghost use Rattle.stepping.specs.Stepped.{Stepped};
ghost use Rattle.channels.specs.Appending.{HoldsEnd, Runs};
ghost use Rattle.channels.specs.Splitting.{FourWithin, SharedStep};

use ends::word::FourEnds;
use ends::{Item, word};
use registers::Registers;
use rules::{End, QUEUE_DEPTH, Record, Refusal, Slot};

// The split is appended to an end's queue, and four free ends become two pairs.
fn split_ends(m: &mut [u8], end: End, new: FourEnds)
    requires m_len { (length m.old ≡ state_size) × (end_number end < end_count) × (count_in m.old (end_number end) < queue_depth) }
    requires four_within { FourWithin new }
    ensures { (st : State) → Sized st → m.old ≡ layout st → is_free_end (end_at st (end_number end)) ≡ false
        → last_of (end_at st (end_number end)) ≡ none
        → FourFree st (end_number new.p) (end_number new.q) (end_number new.s) (end_number new.t)
        → m.new ≡ layout (paired
        (paired (append st (end_number end) (last (split_item (end_number new.q) (end_number new.t))))
        (end_number new.p) (end_number new.q))
        (end_number new.s) (end_number new.t)) }
{
    let q = new.q;
    let t = new.t;
    ends::append(m, end, Item::Split(q, t));
    ends::pair(m, new.p, q);
    ends::pair(m, new.s, t);
}

// The registers after a split: c emptied, then p in a and s in b.
fn split_registers(
    held: Registers,
    c: Slot,
    a: Slot,
    p: End,
    b: Slot,
    s: End,
    next: u16,
) -> Registers
    requires { (end_number p < end_count) × (end_number s < end_count) }
    ensures { (g : Process) → length g.slots ≡ slot_count → held ≡ registers_of g
        → result ≡ registers_of (registers next g.stack g.environment
        (holding (holding (emptied g.slots (slot_number c)) (slot_number a) (end_number p)) (slot_number b) (end_number s))) }
{
    held.empty_slot(c).hold(a, p).hold(b, s).at(next)
}

// 13, 15, or the state after a split whose rows 5 to 11 do not hold.
fn split_at(
    m: &mut [u8],
    r: Record,
    held: Registers,
    c: Slot,
    a: Slot,
    b: Slot,
    next: u16,
) -> Result<(), Refusal>
    requires holds_end { HoldsEnd m.old held (slot_number c) }
    requires r_bound { record_number r < record_count }
    ensures { (g : Process) → Runs m.old (record_number r) held g (slot_number c)
        → SharedStep m.old (record_number r) next g (split_of (slot_number c) (slot_number a) (slot_number b)) result m.new }
{
    let end = stepping::own_end(held, c);
    if QUEUE_DEPTH <= ends::queued(m, end) as usize {
        return Err(Refusal::QueueFull);
    }
    let free = ends::free_word(m);
    if word::count(free) < 4 {
        return Err(Refusal::NoneFree);
    }
    let new = word::four_lowest(free);
    split_ends(m, end, new);
    registers::save_running(m, r, split_registers(held, c, a, new.p, b, new.s, next));
    Ok(())
}

pub fn split(m: &mut [u8], r: Record, c: Slot, a: Slot, b: Slot, next: u16) -> Result<(), Refusal>
    requires { SoundMemory m.old × (record_number r < record_count) }
    ensures { Stepped m.old (record_number r) next (split_of (slot_number c) (slot_number a) (slot_number b)) result
        m.new }
{
    let held = registers::load(m, r);
    causes::split(held, c, a, b)?;
    split_at(m, r, held, c, a, b, next)
}
