// The line of a record in use: running or waiting, its place, stack, environment and slots.
ghost use Rattle.std.specs.Prelude.{◌≡◌, ◌++◌, ◌+◌, ◌≤◌, ◌<◌, length, take};
ghost use Rattle.rules.specs.Limits.{record_count, stack_depth, environment_depth};
ghost use Rattle.rules.specs.State.{record_at};
ghost use Rattle.rules.specs.Text.{text as text_of, decimal};
ghost use Rattle.rules.specs.Layout.{state_size, view};
ghost use Rattle.keeping.specs.Demand3.{SoundMemory};
ghost use Rattle.text.specs.Page.{Room, Puts};
ghost use Rattle.dump.specs.Shown.{values_text, registers_text, record_text};
ghost use Rattle.dump.specs.Pieces.{process_in};

use crate::lists::{put_slots, put_values};
use registers::{Registers, Status};
use rules::{Record, STACK_DEPTH};
use text::Page;

// A word, and the first `count` values.
fn put_named_values(page: &mut Page, word: &[u8], values: [i32; STACK_DEPTH], count: u8)
    requires count_le_stack_depth { count ≤ stack_depth }
    requires room { Room page.old (word.now ++ values_text (take count values)) }
    ensures { Puts page.old (word.now ++ values_text (take count values)) page.new }
{
    page.put_bytes(word);
    put_values(page, values, count);
}

// What a process has, and the line's end.
fn put_registers(page: &mut Page, g: Registers)
    requires stack_count_bound { (g.stack_count ≤ stack_depth) × (g.environment_count ≤ environment_depth) }
    requires room { Room page.old (registers_text (process_in g)) }
    ensures { Puts page.old (registers_text (process_in g)) page.new }
{
    let stack = g.stack;
    let environment = g.environment;
    let slots = g.slots;
    page.put_decimal(g.place as u64);
    put_named_values(page, b" stack ", stack, g.stack_count);
    put_named_values(page, b" env ", environment, g.environment_count);
    page.put_bytes(b" slots ");
    put_slots(page, slots);
    page.put_letter(b'\n');
}

// The record's number, what it does, and what it has.
fn put_line(page: &mut Page, r: u8, status: &[u8], g: Registers)
    requires stack_count_bound { (g.stack_count ≤ stack_depth) × (g.environment_count ≤ environment_depth) }
    requires room { Room page.old (text_of "R" ++ decimal r ++ status.now ++ registers_text (process_in g)) }
    ensures { Puts page.old (text_of "R" ++ decimal r ++ status.now ++ registers_text (process_in g)) page.new }
{
    page.put_lettered(b'R', r as u64);
    page.put_bytes(status);
    put_registers(page, g);
}

// The line of record r; a free one has none.
pub fn put_record(page: &mut Page, m: &[u8], r: u8)
    requires sound { (length m.now ≡ state_size) × (r < record_count) × SoundMemory m.now }
    requires room { Room page.old (record_text r (record_at (view m.now) r)) }
    ensures { Puts page.old (record_text r (record_at (view m.now) r)) page.new }
{
    let g = registers::load(m, Record(r));
    match registers::status_of(m, Record(r)) {
        Status::Free => (),
        Status::Running => put_line(page, r, b" running ", g),
        Status::Waiting => put_line(page, r, b" waiting ", g),
    }
}
