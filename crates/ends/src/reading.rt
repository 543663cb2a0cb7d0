// One end of the state memory: is it free, its partner, how many items are queued on it, what heads its queue, and what stands at an index
// of it; and how many ends in a row have nothing queued. Each answer is that of the state whose layout the memory is.
ghost use Rattle.std.specs.Prelude.{◌≡◌, ℕ, ◌+◌, ◌≤◌, ◌<◌, length};
ghost use Rattle.rules.specs.Limits.{end_count, queue_depth};
ghost use Rattle.rules.specs.Numbers.{end_number};
ghost use Rattle.rules.specs.State.{State, end_at, end_or, is_free_end, partner_of, queue_length, head_of};
ghost use Rattle.rules.specs.Layout.{state_size, free_word, layout};
ghost use Rattle.keeping.proofs.LayoutLaws.{Sized};
ghost use Rattle.ends.specs.Items.{head_in};
ghost use Rattle.ends.specs.Sections.{count_in};
ghost use Rattle.ends.specs.Ends.{EndFits, item_at};

use crate::item::{Item, item_in};
use crate::section::{get_cell, get_eight_counts};
use crate::word::names;
use rules::offsets::{COUNTS_AT, FREE_AT, PARTNERS_AT};
use rules::{END_COUNT, End};
use words::{get8, get64};

// The word of free ends.
pub fn free_word(m: &[u8]) -> u64
    requires { length m.now ≡ state_size }
    ensures { (st : State) → Sized st → m.now ≡ layout st → result ≡ free_word st.ends }
{
    get64(m, FREE_AT)
}

pub fn is_free(m: &[u8], end: End) -> bool
    requires { (length m.now ≡ state_size) × (end_number end < end_count) }
    ensures { (st : State) → Sized st → m.now ≡ layout st → result ≡ is_free_end (end_at st (end_number end)) }
{
    names(free_word(m), end)
}

// The partner; of a free end, end 0.
pub fn partner(m: &[u8], end: End) -> End
    requires { (length m.now ≡ state_size) × (end_number end < end_count) }
    ensures { (st : State) → Sized st → m.now ≡ layout st
        → end_number result ≡ end_or 0 (partner_of (end_at st (end_number end))) }
{
    End(get8(m, PARTNERS_AT + end.0 as usize))
}

// How many items are queued.
pub fn queued(m: &[u8], end: End) -> u8
    requires { (length m.now ≡ state_size) × (end_number end < end_count) }
    ensures counted { result ≡ count_in m.now (end_number end) }
    ensures queued { (st : State) → Sized st → m.now ≡ layout st → result ≡ queue_length (end_at st (end_number end)) }
{
    get8(m, COUNTS_AT + end.0 as usize)
}

pub fn head(m: &[u8], end: End) -> Option<Item>
    requires { (length m.now ≡ state_size) × (end_number end < end_count) }
    ensures { (st : State) → Sized st → m.now ≡ layout st → EndFits (end_at st (end_number end))
        → head_in result ≡ head_of (end_at st (end_number end)) }
{
    item_in(get_cell(m, end, 0))
}

// The item at an index of an end's queue, the head at 0; behind the last, none.
pub fn item_at(m: &[u8], end: End, index: u8) -> Option<Item>
    requires { (length m.now ≡ state_size) × (end_number end < end_count) × (index < queue_depth) }
    ensures { (st : State) → Sized st → m.now ≡ layout st → EndFits (end_at st (end_number end))
        → head_in result ≡ item_at index (end_at st (end_number end)) }
{
    item_in(get_cell(m, end, index))
}

// How many ends, from this one on, one look shows to have nothing queued: eight, this one alone, or none.
pub fn empty_from(m: &[u8], end: End) -> u8
    requires { (length m.now ≡ state_size) × (end_number end < end_count) }
    ensures within { end_number end + result ≤ end_count }
    ensures empty { (st : State) → Sized st → m.now ≡ layout st → (i : ℕ) → i < result
        → queue_length (end_at st (end_number end + i)) ≡ 0 }
{
    if end.0 as usize + 8 <= END_COUNT {
        if get_eight_counts(m, end) == 0 {
            return 8;
        }
    }
    if queued(m, end) == 0 {
        return 1;
    }
    0
}
