// S1 of document 01 on bytes: every count and number is within its limit, and all that is not in use is zero. A memory that passes is the
// layout of the state that it shows, and that state is within the limits (proofs/Memory.antt).

#![tactic(auto)]

ghost use Rattle.std.specs.Prelude.{◌≡◌, ◌<◌, length};
ghost use Rattle.rules.specs.Limits.{record_count, end_count};
ghost use Rattle.rules.specs.Slots.{in_set};
ghost use Rattle.rules.specs.SoundTest.{every};
ghost use Rattle.rules.specs.Layout.{state_size};
ghost use Rattle.canonical.specs.Canonical.{canonical_code, record_test, end_test, canonical_bytes};

use queues::end_is_canonical;
use records::record_is_canonical;
use rules::offsets::{
    COUNTS_AT, FREE_AT, PARTNERS_AT, QUEUE_SIZE, QUEUES_AT, RECORD_SIZE, RECORDS_AT,
};
use rules::{CODE_LIMIT, END_COUNT, RECORD_COUNT};
use unused::all_zero;
use words::{get16, get64};

mod unused; // unused.rt: bytes not in use, which must all be zero
mod records; // records.rt: a record's bytes
mod queues; // queues.rt: an end's bytes

// The code's length, and zeros behind the code.
fn code_is_canonical(m: &[u8]) -> bool
    requires { length m.now ≡ state_size }
    ensures { result ≡ canonical_code m.now }
{
    let n = usize::from(get16(m, 0));
    if CODE_LIMIT < n {
        return false;
    }
    let behind = 2 + n;
    all_zero(&m[behind..RECORDS_AT])
}

fn records_are_canonical(m: &[u8]) -> bool
    requires { length m.now ≡ state_size }
    ensures { result ≡ every (record_test m.now) record_count }
{
    for i in 0..RECORD_COUNT {
        let from = RECORDS_AT + RECORD_SIZE * i;
        let to = from + RECORD_SIZE;
        if !record_is_canonical(&m[from..to]) {
            return false;
        }
    }
    true
}

// Is end e free? The word has bit e for end e.
pub fn is_free(word: u64, e: usize) -> bool
    requires { e < end_count }
    ensures { result ≡ in_set word e }
{
    (word >> e) % 2 == 1
}

fn ends_are_canonical(m: &[u8]) -> bool
    requires { length m.now ≡ state_size }
    ensures { result ≡ every (end_test m.now) end_count }
{
    let word = get64(m, FREE_AT);
    for e in 0..END_COUNT {
        let from = QUEUES_AT + QUEUE_SIZE * e;
        let to = from + QUEUE_SIZE;
        if !end_is_canonical(
            is_free(word, e),
            m[PARTNERS_AT + e],
            m[COUNTS_AT + e],
            &m[from..to],
        ) {
            return false;
        }
    }
    true
}

pub fn is_canonical(m: &[u8]) -> bool
    requires { length m.now ≡ state_size }
    ensures { result ≡ canonical_bytes m.now }
{
    if !code_is_canonical(m) {
        return false;
    }
    if !records_are_canonical(m) {
        return false;
    }
    ends_are_canonical(m)
}
