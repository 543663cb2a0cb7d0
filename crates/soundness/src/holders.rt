// S3: each end in use is in exactly one of one slot of one record in use, one split item, or given up; a free one in none.
ghost use Rattle.std.specs.Prelude.{◌≡◌, true, map, ℕ, ◌+◌, ◌≤◌, ◌<◌, length, eqb};
ghost use Rattle.rules.specs.Limits.{end_count, slot_count};
ghost use Rattle.rules.specs.Bytes.{number_at};
ghost use Rattle.rules.specs.State.{end_at};
ghost use Rattle.rules.specs.Count.{total};
ghost use Rattle.rules.specs.Sound.{in_slot, held_in, in_last, gives_up, given_up, in_use};
ghost use Rattle.rules.specs.SoundTest.{all, every, last_within, places_test};
ghost use Rattle.rules.specs.Layout.{record_size, free_size, free_at, state_size, view_optional, view_record, view};
ghost use Rattle.canonical.specs.Canonical.{slot_fits, canonical_record, end_test, canonical_bytes};
ghost use Rattle.soundness.specs.Lasts.{last_meaning};
ghost use Rattle.soundness.specs.Counts.{slots_in_all, places_in_all, Below, Added, Counted, standing};

use crate::counts::add_one;
use crate::lasts::{Last, last_of};
use canonical::is_free;
use rules::offsets::{FREE_AT, RECORD_SIZE, RECORDS_AT, SLOTS_FROM, STACK_FROM};
use rules::{END_COUNT, RECORD_COUNT};
use words::get64;

// A slot that holds an end counts for it.
fn count_slot(counts: &mut [u16], slot: u8)
    requires { (length counts.old ≡ end_count) × (slot ≤ end_count) × Below (places_in_all + slot_count) counts.old }
    ensures { Added end_count (λ (e : ℕ). in_slot e (view_optional slot)) counts.old counts.new }
{
    if slot == 0 {
        return;
    }
    add_one(counts, usize::from(slot - 1));
}

fn count_slots(counts: &mut [u16], slots: &[u8])
    requires { (length counts.old ≡ end_count) × (length slots.now ≡ slot_count) × (all slot_fits slots.now ≡ true)
        × Below places_in_all counts.old }
    ensures { Added end_count (λ (e : ℕ). total (in_slot e) (map view_optional slots.now))
        counts.old counts.new }
{
    for slot in slots {
        count_slot(counts, *slot);
    }
}

fn count_record(counts: &mut [u16], bytes: &[u8])
    requires { (length counts.old ≡ end_count) × (length bytes.now ≡ record_size) × (canonical_record bytes.now ≡ true)
        × Below places_in_all counts.old }
    ensures { Added end_count (λ (e : ℕ). held_in e (view_record bytes.now)) counts.old counts.new }
{
    if bytes[0] == 0 {
        return;
    }
    count_slots(counts, &bytes[SLOTS_FROM..STACK_FROM]);
}

// In how many slots of records in use each end is.
fn held_counts(m: &[u8]) -> [u16; END_COUNT]
    requires { (length m.now ≡ state_size) × (canonical_bytes m.now ≡ true) }
    ensures { Counted end_count slots_in_all (λ (e : ℕ). total (held_in e) (view m.now).records) result }
{
    let mut counts = [0u16; END_COUNT];
    for i in 0..RECORD_COUNT {
        let from = RECORDS_AT + RECORD_SIZE * i;
        let to = from + RECORD_SIZE;
        count_record(&mut counts, &m[from..to]);
    }
    counts
}

// A split carries its two ends.
fn count_carried(counts: &mut [u16], last: Option<Last>)
    requires { (length counts.old ≡ end_count) × (last_within (last_meaning last) ≡ true) × Below places_in_all counts.old }
    ensures { Added end_count (λ (e : ℕ). in_last e (last_meaning last)) counts.old counts.new }
{
    if let Some(Last::Split(p, q)) = last {
        add_one(counts, usize::from(p.0));
        add_one(counts, usize::from(q.0));
    }
}

// In how many slots of records in use and in how many split items each end is.
fn standing_counts(m: &[u8]) -> [u16; END_COUNT]
    requires { (length m.now ≡ state_size) × (canonical_bytes m.now ≡ true) }
    ensures { Counted end_count places_in_all (standing (view m.now)) result }
{
    let mut counts = held_counts(m);
    for e in 0..END_COUNT {
        count_carried(&mut counts, last_of(m, e));
    }
    counts
}

// An end is given up exactly when the last item of its own queue is a close or a split.
fn given_up(last: Option<Last>) -> u16
    ensures { result ≡ gives_up (last_meaning last) }
{
    match last {
        Some(Last::Split(_, _) | Last::Close) => 1,
        Some(Last::Wait(_)) | None => 0,
    }
}

// `count` is in how many slots and split items the end is.
fn stands_once(m: &[u8], word: u64, e: usize, count: u16) -> bool
    requires m_len { (length m.now ≡ state_size) × (e < end_count) × (end_test m.now e ≡ true)
        × (word ≡ number_at free_size m.now free_at) }
    requires count_le_places_in_all { count ≤ places_in_all }
    ensures { result ≡ eqb (count + given_up (end_at (view m.now) e)) (in_use (end_at (view m.now) e)) }
{
    let places = count + given_up(last_of(m, e));
    if is_free(word, e) {
        return places == 0;
    }
    places == 1
}

pub fn ends_stand_once(m: &[u8]) -> bool
    requires { (length m.now ≡ state_size) × (canonical_bytes m.now ≡ true) }
    ensures { result ≡ every (places_test (view m.now)) end_count }
{
    let counts = standing_counts(m);
    let word = get64(m, FREE_AT);
    (0..END_COUNT).all(|e| stands_once(m, word, e, counts[e]))
}
