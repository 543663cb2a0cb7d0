// S2: an end in use has a partner other than itself, whose partner it is.
ghost use Rattle.std.specs.Prelude.{◌≡◌, ◌<◌, length};
ghost use Rattle.rules.specs.Limits.{end_count};
ghost use Rattle.rules.specs.Bytes.{number_at};
ghost use Rattle.rules.specs.SoundTest.{every, paired_test};
ghost use Rattle.rules.specs.Layout.{free_size, free_at, state_size, view};

use canonical::is_free;
use rules::END_COUNT;
use rules::offsets::{FREE_AT, PARTNERS_AT};
use words::get64;

fn is_paired(m: &[u8], word: u64, e: usize) -> bool
    requires { (length m.now ≡ state_size) × (e < end_count) × (word ≡ number_at free_size m.now free_at) }
    ensures { result ≡ paired_test (view m.now) e }
{
    if is_free(word, e) {
        return true;
    }
    let partner = usize::from(m[PARTNERS_AT + e]);
    if partner == e {
        return false;
    }
    if END_COUNT <= partner {
        return false;
    }
    if is_free(word, partner) {
        return false;
    }
    usize::from(m[PARTNERS_AT + partner]) == e
}

pub fn ends_are_paired(m: &[u8]) -> bool
    requires { length m.now ≡ state_size }
    ensures { result ≡ every (paired_test (view m.now)) end_count }
{
    let word = get64(m, FREE_AT);
    (0..END_COUNT).all(|e| is_paired(m, word, e))
}
