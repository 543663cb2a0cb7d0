// The line of an end in use: its partner, and its queue with the head first.
ghost use Rattle.std.specs.Prelude.{◌≡◌, [], ◌++◌, ◌+◌, ◌≤◌, ◌<◌, length, get_or};
ghost use Rattle.rules.specs.Limits.{end_count};
ghost use Rattle.rules.specs.Numbers.{end_number};
ghost use Rattle.rules.specs.State.{end_at};
ghost use Rattle.rules.specs.Text.{text as text_of, decimal, signed_decimal};
ghost use Rattle.rules.specs.Layout.{state_size, view};
ghost use Rattle.keeping.specs.Demand3.{SoundMemory};
ghost use Rattle.text.specs.Page.{Room, Puts};
ghost use Rattle.ends.specs.Items.{item_of};
ghost use Rattle.dump.specs.Shown.{list_text, item_text, end_text};
ghost use Rattle.dump.specs.Pieces.{comma_behind, item_texts};

use crate::lists::{put_comma, put_dash, put_named};
use ends::Item;
use rules::End;
use text::Page;

// A value in a queue.
fn put_queued_value(page: &mut Page, v: i32)
    requires { Room page.old (text_of "v" ++ signed_decimal v) }
    ensures { Puts page.old (text_of "v" ++ signed_decimal v) page.new }
{
    page.put_letter(b'v');
    page.put_signed(v);
}

// The first and the second end of a split.
fn put_split(page: &mut Page, p: End, q: End)
    requires { Room page.old (text_of "s" ++ decimal (end_number p) ++ text_of ":" ++ decimal (end_number q)) }
    ensures { Puts page.old (text_of "s" ++ decimal (end_number p) ++ text_of ":" ++ decimal (end_number q)) page.new }
{
    page.put_lettered(b's', p.0 as u64);
    page.put_lettered(b':', q.0 as u64);
}

// An item of a queue.
fn put_item(page: &mut Page, item: Item)
    requires { Room page.old (item_text (item_of item)) }
    ensures { Puts page.old (item_text (item_of item)) page.new }
{
    match item {
        Item::Value(v) => put_queued_value(page, v),
        Item::Handle(n) => page.put_lettered(b'h', n as u64),
        Item::Split(p, q) => put_split(page, p, q),
        Item::Close => page.put_letter(b'c'),
        Item::Wait(r) => page.put_lettered(b'w', r.0 as u64),
    }
}

// Item k of an end's queue, behind k others.
fn put_next(page: &mut Page, m: &[u8], e: u8, k: usize)
    requires sound { (length m.now ≡ state_size) × (e < end_count) × SoundMemory m.now }
    requires in_queue { k < length (item_texts (end_at (view m.now) e)) }
    requires room { Room page.old (comma_behind k ++ get_or (item_texts (end_at (view m.now) e)) k []) }
    ensures { Puts page.old (comma_behind k ++ get_or (item_texts (end_at (view m.now) e)) k []) page.new }
{
    let Some(item) = ends::item_at(m, End(e), k as u8) else {
        return;
    };
    put_comma(page, k);
    put_item(page, item);
}

// The items of an end's queue.
fn put_queue(page: &mut Page, m: &[u8], e: u8)
    requires sound { (length m.now ≡ state_size) × (e < end_count) × SoundMemory m.now }
    requires room { Room page.old (list_text (item_texts (end_at (view m.now) e))) }
    ensures { Puts page.old (list_text (item_texts (end_at (view m.now) e))) page.new }
{
    let count = ends::queued(m, End(e)) as usize;
    for k in 0..count {
        put_next(page, m, e, k);
    }
    put_dash(page, count);
}

// The end's number and its partner's.
fn put_head(page: &mut Page, e: u8, partner: End)
    requires { Room page.old (text_of "E" ++ decimal e ++ text_of " partner " ++ decimal (end_number partner) ++ text_of " queue ") }
    ensures { Puts page.old (text_of "E" ++ decimal e ++ text_of " partner " ++ decimal (end_number partner) ++ text_of " queue ")
        page.new }
{
    page.put_lettered(b'E', e as u64);
    put_named(page, b" partner ", partner.0 as u64);
    page.put_bytes(b" queue ");
}

// The line of end e; a free one has none.
pub fn put_end(page: &mut Page, m: &[u8], e: u8)
    requires sound { (length m.now ≡ state_size) × (e < end_count) × SoundMemory m.now }
    requires room { Room page.old (end_text e (end_at (view m.now) e)) }
    ensures { Puts page.old (end_text e (end_at (view m.now) e)) page.new }
{
    if ends::is_free(m, End(e)) {
        return;
    }
    put_head(page, e, ends::partner(m, End(e)));
    put_queue(page, m, e);
    page.put_letter(b'\n');
}
