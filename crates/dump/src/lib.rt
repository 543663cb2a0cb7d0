// A state in words, as the console shows it: a line for the code, one for each record in use, one for each end in use, and `end`. What is
// printed is `state_text` of the state that a sound memory shows. A function asks for just the room that its text takes.

#![tactic(auto)]

mod end_line;
mod lists;
mod record_line;

ghost use Rattle.std.specs.Prelude.{◌≡◌, ◌++◌, ◌+◌, ◌≤◌, length};
ghost use Rattle.rules.specs.Text.{text as text_of};
ghost use Rattle.rules.specs.Layout.{state_size, view};
ghost use Rattle.keeping.specs.Demand3.{SoundMemory};
ghost use Rattle.text.specs.Page.{Room, Puts};
ghost use Rattle.dump.specs.Shown.{code_text, records_text, ends_text, state_text};

use rules::{END_COUNT, RECORD_COUNT};
use text::Page;

// The bytes of a code in hex, `-` for none.
fn put_bytes_of(page: &mut Page, code: &[u8])
    requires { Room page.old (code_text code.now) }
    ensures { Puts page.old (code_text code.now) page.new }
{
    if code.len() == 0 {
        return page.put_letter(b'-');
    }
    page.put_hex(code);
}

// The line of the code.
fn put_code(page: &mut Page, m: &[u8])
    requires sound { (length m.now ≡ state_size) × SoundMemory m.now }
    requires room { Room page.old (text_of "code " ++ code_text (view m.now).code ++ text_of "\n") }
    ensures { Puts page.old (text_of "code " ++ code_text (view m.now).code ++ text_of "\n") page.new }
{
    page.put_bytes(b"code ");
    put_bytes_of(page, stepping::code(m));
    page.put_letter(b'\n');
}

// The lines of the records.
fn put_records(page: &mut Page, m: &[u8])
    requires sound { (length m.now ≡ state_size) × SoundMemory m.now }
    requires room { Room page.old (records_text (view m.now).records) }
    ensures { Puts page.old (records_text (view m.now).records) page.new }
{
    for r in 0..RECORD_COUNT {
        record_line::put_record(page, m, r as u8);
    }
}

// The lines of the ends. One function for these and the records would take what prints a line as a closure, and its contract would have to
// ask at every place and number what `put_end` asks: no shorter than two loops of three lines.
fn put_ends(page: &mut Page, m: &[u8])
    requires sound { (length m.now ≡ state_size) × SoundMemory m.now }
    requires room { Room page.old (ends_text (view m.now).ends) }
    ensures { Puts page.old (ends_text (view m.now).ends) page.new }
{
    for e in 0..END_COUNT {
        end_line::put_end(page, m, e as u8);
    }
}

// The state in words.
pub fn put_state(page: &mut Page, m: &[u8])
    requires sound_memory { SoundMemory m.now }
    requires room { Room page.old (state_text (view m.now)) }
    ensures { Puts page.old (state_text (view m.now)) page.new }
{
    put_code(page, m);
    put_records(page, m);
    put_ends(page, m);
    page.put_bytes(b"end\n");
}
