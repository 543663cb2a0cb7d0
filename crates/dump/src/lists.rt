// Numbers and lists of them: commas between the things of a list, `-` for an empty one.
ghost use Rattle.std.specs.Prelude.{◌++◌, map, ◌+◌, ◌≤◌, length, take};
ghost use Rattle.rules.specs.Limits.{stack_depth};
ghost use Rattle.rules.specs.Text.{decimal, signed_decimal};
ghost use Rattle.rules.specs.Layout.{view_optional};
ghost use Rattle.text.specs.Page.{Room, Puts};
ghost use Rattle.dump.specs.Shown.{values_text, slot_text, slots_text};
ghost use Rattle.dump.specs.Pieces.{comma_behind, dash_for};

use rules::{SLOT_COUNT, STACK_DEPTH};
use text::Page;

// A word and a number.
pub fn put_named(page: &mut Page, word: &[u8], n: u64)
    requires { Room page.old (word.now ++ decimal n) }
    ensures { Puts page.old (word.now ++ decimal n) page.new }
{
    page.put_bytes(word);
    page.put_decimal(n);
}

// A comma behind so many things of a list; behind none, nothing.
pub fn put_comma(page: &mut Page, shown: usize)
    requires { Room page.old (comma_behind shown) }
    ensures { Puts page.old (comma_behind shown) page.new }
{
    if shown != 0 {
        page.put_letter(b',');
    }
}

// What ends a list of so many things: `-` for none.
pub fn put_dash(page: &mut Page, shown: usize)
    requires { Room page.old (dash_for shown) }
    ensures { Puts page.old (dash_for shown) page.new }
{
    if shown == 0 {
        page.put_letter(b'-');
    }
}

// A value of a list, behind so many.
fn put_value(page: &mut Page, shown: usize, v: i32)
    requires { Room page.old (comma_behind shown ++ signed_decimal v) }
    ensures { Puts page.old (comma_behind shown ++ signed_decimal v) page.new }
{
    put_comma(page, shown);
    page.put_signed(v);
}

// The first `count` values.
pub fn put_values(page: &mut Page, values: [i32; STACK_DEPTH], count: u8)
    requires count_le_stack_depth { count ≤ stack_depth }
    requires room { Room page.old (values_text (take count values)) }
    ensures { Puts page.old (values_text (take count values)) page.new }
{
    let shown = count as usize;
    for k in 0..shown {
        put_value(page, k, values[k]);
    }
    put_dash(page, shown);
}

// A slot that holds an end, behind so many.
fn put_slot(page: &mut Page, shown: usize, c: usize, e: u8)
    requires { Room page.old (comma_behind shown ++ slot_text c e) }
    ensures { Puts page.old (comma_behind shown ++ slot_text c e) page.new }
{
    put_comma(page, shown);
    page.put_decimal(c as u64);
    page.put_lettered(b':', e as u64);
}

// The slots that hold an end: in its byte an end's number and one, 0 for an empty slot.
pub fn put_slots(page: &mut Page, slots: [u8; SLOT_COUNT])
    requires { Room page.old (slots_text (map view_optional slots)) }
    ensures { Puts page.old (slots_text (map view_optional slots)) page.new }
{
    let mut shown = 0;
    for c in 0..SLOT_COUNT {
        if slots[c] != 0 {
            put_slot(page, shown, c, slots[c] - 1);
            shown += 1;
        }
    }
    put_dash(page, shown);
}
