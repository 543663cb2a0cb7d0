// S4: each waiting record is named by exactly one wait item, running or free ones by none. That a wait stands only last in a queue is S1's.
ghost use Rattle.std.specs.Prelude.{◌≡◌, true, ℕ, length, eqb};
ghost use Rattle.rules.specs.Limits.{record_count, end_count};
ghost use Rattle.rules.specs.State.{RecordState};
ghost use Rattle.rules.specs.Sound.{named_by_last, waits_naming, is_waiting};
ghost use Rattle.rules.specs.SoundTest.{every, last_within, waits_test};
ghost use Rattle.rules.specs.Layout.{state_size, view};
ghost use Rattle.canonical.specs.Canonical.{canonical_bytes};
ghost use Rattle.registers.specs.Registers.{status_of};
ghost use Rattle.soundness.specs.Lasts.{last_meaning};
ghost use Rattle.soundness.specs.Counts.{Below, Added, Counted};

use crate::counts::add_one;
use crate::lasts::{Last, last_of};
use registers::Status;
use rules::{END_COUNT, RECORD_COUNT, Record};

// A wait counts for the record that it names.
fn count_wait(counts: &mut [u16], last: Option<Last>)
    requires { (length counts.old ≡ record_count) × (last_within (last_meaning last) ≡ true) × Below end_count counts.old }
    ensures { Added record_count (λ (r : ℕ). named_by_last r (last_meaning last)) counts.old counts.new }
{
    if let Some(Last::Wait(r)) = last {
        add_one(counts, usize::from(r.0));
    }
}

// How many wait items name each record.
fn wait_counts(m: &[u8]) -> [u16; RECORD_COUNT]
    requires { (length m.now ≡ state_size) × (canonical_bytes m.now ≡ true) }
    ensures { Counted record_count end_count (waits_naming (view m.now)) result }
{
    let mut counts = [0u16; RECORD_COUNT];
    for e in 0..END_COUNT {
        count_wait(&mut counts, last_of(m, e));
    }
    counts
}

// `count` is how many wait items name the record.
fn is_named_rightly(status: Status, count: u16) -> bool
    ensures { (x : RecordState) → status ≡ status_of x → result ≡ eqb count (is_waiting x) }
{
    if status == Status::Waiting {
        return count == 1;
    }
    count == 0
}

pub fn records_are_named_rightly(m: &[u8]) -> bool
    requires { (length m.now ≡ state_size) × (canonical_bytes m.now ≡ true) }
    ensures { result ≡ every (waits_test (view m.now)) record_count }
{
    let counts = wait_counts(m);
    (0..RECORD_COUNT).all(|i| is_named_rightly(registers::status_of(m, Record(i as u8)), counts[i]))
}
