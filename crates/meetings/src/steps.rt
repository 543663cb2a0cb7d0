// The steps at an end: a datum delivered, a split divided, close against close. Each looks at the waiting record first, answers 18 where
// it wants something else, and changes the memory last.
ghost use Rattle.std.specs.Prelude.{◌≡◌, ◌≢◌, ◌<◌, length};
ghost use Rattle.rules.specs.Limits.{end_count, record_count};
ghost use Rattle.rules.specs.Numbers.{end_number, record_number};
ghost use Rattle.rules.specs.State.{State, Registers as Process, running, end_at, set_record, set_end, behind_head};
ghost use Rattle.rules.specs.EndStep.{closes, freed};
ghost use Rattle.rules.specs.Layout.{state_size, layout, view};
ghost use Rattle.keeping.specs.Demand3.{SoundMemory};
ghost use Rattle.keeping.proofs.LayoutLaws.{Sized};
ghost use Rattle.ends.specs.Ends.{EndFits};
ghost use Rattle.registers.specs.Registers.{registers_of};
ghost use Rattle.meetings.specs.Heads.{datum_of, DatumWaits, NoData, SplitWaits};
ghost use Rattle.meetings.specs.Wanted.{HasRoom, RunsOn};
ghost use Rattle.meetings.specs.Stepped.{Met, DatumMet, SplitMet};

use crate::heads::Datum;
use crate::wanted::{Wanted, wanted_at};
use registers::Registers;
use rules::{End, Record, Refusal};

// Both heads are removed, and record r runs with these registers.
fn take_both(m: &mut [u8], from: End, to: End, r: Record, x: Registers)
    requires { (length m.old ≡ state_size) × (end_number from < end_count) × (end_number to < end_count)
        × (record_number r < record_count) }
    ensures { (st : State) (g : Process) → Sized st → m.old ≡ layout st → EndFits (end_at st (end_number from))
        → EndFits (end_at st (end_number to)) → end_number from ≢ end_number to → x ≡ registers_of g
        → m.new ≡ layout (set_record
        (set_end (set_end st (end_number from) (behind_head (end_at st (end_number from)))) (end_number to)
        (behind_head (end_at st (end_number to)))) (record_number r) (running g)) }
{
    ends::take_head(m, from);
    ends::take_head(m, to);
    registers::save_running(m, r, x);
}

// The registers that a record with these registers runs on with where the datum is what it waits for: a value for a get, after it with the
// value pushed; a handle n for an hcase of k places with n < k, at its place n.
fn runs_on(m: &[u8], held: Registers, datum: Datum) -> Option<Registers>
    requires sound_memory { SoundMemory m.now }
    requires room { HasRoom (view m.now).code held }
    ensures { (g : Process) → held ≡ registers_of g → RunsOn (view m.now).code g (datum_of datum) result }
{
    match (datum, wanted_at(m, held.place)?) {
        (Datum::Value(v), Wanted::Value(next)) => {
            let pushed = held.push(v);
            Some(pushed.at(next))
        }
        (Datum::Handle(n), Wanted::Handle(k)) if n < k => {
            let place = code::case_place(stepping::code(m), held.place as usize, n);
            Some(held.at(place))
        }
        _ => None,
    }
}

// The datum at the head of `from` meets the wait of record r at the head of `to`.
pub fn deliver(m: &mut [u8], from: End, to: End, datum: Datum, r: Record) -> Result<(), Refusal>
    requires sound_memory { SoundMemory m.old }
    requires datum_waits { DatumWaits (view m.old) (end_number from) (end_number to) (datum_of datum) (record_number r) }
    ensures { DatumMet m.old (end_number from) (end_number to) (record_number r) (datum_of datum)
        result m.new }
{
    let held = registers::load(m, r);
    let Some(after) = runs_on(m, held, datum) else {
        return Err(Refusal::HeadsMismatch);
    };
    take_both(m, from, to, r, after);
    Ok(())
}

// Both ends of a pair without values and handles become free.
fn free_both(m: &mut [u8], e: End, f: End)
    requires { (length m.old ≡ state_size) × (end_number e < end_count) × (end_number f < end_count) }
    ensures { (st : State) → Sized st → m.old ≡ layout st → NoData st (end_number e) (end_number f)
        → m.new ≡ layout (freed st (end_number e) (end_number f)) }
{
    ends::free(m, e);
    ends::free(m, f);
}

// Both ends of a pair become free, record r runs with one's registers, the new record with the other's.
fn free_and_run(m: &mut [u8], e: End, f: End, r: Record, x: Registers, new: Record, y: Registers)
    requires { (length m.old ≡ state_size) × (end_number e < end_count) × (end_number f < end_count) × (record_number r < record_count)
        × (record_number new < record_count) }
    ensures { (st : State) (g g' : Process) → Sized st → m.old ≡ layout st → NoData st (end_number e) (end_number f)
        → x ≡ registers_of g → y ≡ registers_of g'
        → m.new ≡ layout (set_record (set_record (freed st (end_number e) (end_number f)) (record_number r) (running g))
        (record_number new) (running g')) }
{
    free_both(m, e, f);
    registers::save_running(m, r, x);
    registers::save_running(m, new, y);
}

// The split of two ends against a fork: record r runs with the first branch and the first end, a free record with the second. 19 where
// no record is free.
pub fn divide(
    m: &mut [u8],
    e: End,
    f: End,
    first: End,
    second: End,
    r: Record,
) -> Result<(), Refusal>
    requires sound_memory { SoundMemory m.old × (end_number e < end_count) × (end_number f < end_count) }
    requires no_data { NoData (view m.old) (end_number e) (end_number f)
        × SplitWaits (view m.old) (end_number first) (end_number second) (record_number r) }
    ensures { SplitMet m.old (end_number e) (end_number f) (end_number first) (end_number second) (record_number r)
        result m.new }
{
    let held = registers::load(m, r);
    let Some(
        Wanted::Split {
            a,
            first: one,
            b,
            second: two,
        },
    ) = wanted_at(m, held.place)
    else {
        return Err(Refusal::HeadsMismatch);
    };
    let Some(new) = registers::lowest_free_record(m) else {
        return Err(Refusal::NoRecordForFork);
    };
    let x = held.branch(a, one.set, one.place, first);
    let y = held.branch(b, two.set, two.place, second);
    free_and_run(m, e, f, r, x, new, y);
    Ok(())
}

// Close against close: both ends become free.
pub fn close(m: &mut [u8], e: End, f: End) -> Result<(), Refusal>
    requires sound_memory { SoundMemory m.old × (end_number e < end_count) × (end_number f < end_count) }
    requires no_data { NoData (view m.old) (end_number e) (end_number f) }
    ensures { Met m.old (end_number e) (end_number f) closes result m.new }
{
    free_both(m, e, f);
    Ok(())
}
