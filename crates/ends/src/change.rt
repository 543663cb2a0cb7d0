// Changes of one end or of a pair: the memory afterwards is the layout of the state with just these ends put anew.
ghost use Rattle.std.specs.Prelude.{◌≡◌, ◌≢◌, false, [], ◌<◌, length};
ghost use Rattle.std.proofs.Math.Option.{none};
ghost use Rattle.rules.specs.Limits.{end_count, queue_depth};
ghost use Rattle.rules.specs.Numbers.{end_number};
ghost use Rattle.rules.specs.State.{State, free_end, fresh_end, end_at, set_end, is_free_end, last_of, data_of, behind_head, with_partner};
ghost use Rattle.rules.specs.RecordStep.{append, paired};
ghost use Rattle.rules.specs.Layout.{state_size, layout};
ghost use Rattle.keeping.proofs.LayoutLaws.{Sized};
ghost use Rattle.ends.specs.Items.{item_of};
ghost use Rattle.ends.specs.Sections.{count_in};
ghost use Rattle.ends.specs.Ends.{EndFits};

use crate::item::{Item, cell_of};
use crate::reading::{free_word, queued};
use crate::section::{get_cells, put_cell, put_cells, put_count, put_partner, put_word};
use crate::word::{freed, taken};
use rules::End;

// An item is appended to the queue of an end in use that has no last item and room.
pub fn append(m: &mut [u8], end: End, item: Item)
    requires { (length m.old ≡ state_size) × (end_number end < end_count) × (count_in m.old (end_number end) < queue_depth) }
    ensures { (st : State) → Sized st → m.old ≡ layout st → is_free_end (end_at st (end_number end)) ≡ false
        → last_of (end_at st (end_number end)) ≡ none → m.new ≡ layout (append st (end_number end) (item_of item)) }
{
    let count = queued(m, end);
    put_cell(m, end, count, cell_of(item));
    put_count(m, end, count + 1);
}

// The head of an end's queue is removed; from an empty queue, nothing.
pub fn take_head(m: &mut [u8], end: End)
    requires { (length m.old ≡ state_size) × (end_number end < end_count) }
    ensures { (st : State) → Sized st → m.old ≡ layout st → EndFits (end_at st (end_number end))
        → m.new ≡ layout (set_end st (end_number end) (behind_head (end_at st (end_number end)))) }
{
    let count = queued(m, end);
    if count == 0 {
        return;
    }
    let c = get_cells(m, end);
    put_cells(m, end, [c[1], c[2], c[3], c[4], c[5], c[6], c[7], 0]);
    put_count(m, end, count - 1);
}

// A free end comes into use, with a partner and an empty queue.
fn take(m: &mut [u8], end: End, partner: End)
    requires { (length m.old ≡ state_size) × (end_number end < end_count) }
    ensures { (st : State) → Sized st → m.old ≡ layout st → end_at st (end_number end) ≡ free_end
        → m.new ≡ layout (set_end st (end_number end) (fresh_end (end_number partner))) }
{
    let word = taken(free_word(m), end);
    put_word(m, word);
    put_partner(m, end, partner.0);
}

// Two free ends become a pair.
pub fn pair(m: &mut [u8], p: End, q: End)
    requires { (length m.old ≡ state_size) × (end_number p < end_count) × (end_number q < end_count) }
    ensures { (st : State) → Sized st → m.old ≡ layout st → end_at st (end_number p) ≡ free_end
        → end_at st (end_number q) ≡ free_end → end_number p ≢ end_number q
        → m.new ≡ layout (paired st (end_number p) (end_number q)) }
{
    take(m, p, q);
    take(m, q, p);
}

// An end whose queue holds no value and no handle becomes free.
pub fn free(m: &mut [u8], end: End)
    requires { (length m.old ≡ state_size) × (end_number end < end_count) }
    ensures { (st : State) → Sized st → m.old ≡ layout st → data_of (end_at st (end_number end)) ≡ []
        → m.new ≡ layout (set_end st (end_number end) free_end) }
{
    let word = freed(free_word(m), end);
    put_word(m, word);
    put_partner(m, end, 0);
    put_count(m, end, 0);
    put_cell(m, end, 0, 0);
}

// An end in use gets another partner; its queue stays.
pub fn set_partner(m: &mut [u8], end: End, partner: End)
    requires { (length m.old ≡ state_size) × (end_number end < end_count) }
    ensures { (st : State) → Sized st → m.old ≡ layout st → is_free_end (end_at st (end_number end)) ≡ false
        → m.new ≡ layout (set_end st (end_number end) (with_partner (end_number partner) (end_at st (end_number end)))) }
{
    put_partner(m, end, partner.0);
}
