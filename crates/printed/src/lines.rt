// A line of the printing program on a page: the step's number, who was asked, and what was done. Each function asks for just the room that
// its text takes.
ghost use Rattle.std.specs.Prelude.{◌++◌, ◌+◌, ◌≤◌, length};
ghost use Rattle.std.proofs.Math.Option.{some};
ghost use Rattle.rules.specs.Text.{text as text_of, decimal};
ghost use Rattle.rules.specs.Printed.{kind_text, position_text, line_text, verdict_text};
ghost use Rattle.text.specs.Page.{Room, Puts};
ghost use Rattle.printed.specs.Meaning.{kind_in, printed_of, verdict_in, last_line};

use crate::kinds::{Kind, Printed};
use crate::line_words::{is_numbered, put_word, word_of, word_of_verdict};
use rules::RECORD_COUNT;
use runner::Verdict;
use text::Page;

// R and the record, or E and the end.
fn put_position(page: &mut Page, position: u32)
    requires { Room page.old (position_text position) }
    ensures { Puts page.old (position_text position) page.new }
{
    if position < RECORD_COUNT as u32 {
        return page.put_lettered(b'R', position as u64);
    }
    page.put_lettered(b'E', (position - RECORD_COUNT as u32) as u64);
}

// The instruction's name, or value or handle with its number, or split or close.
fn put_kind(page: &mut Page, kind: Kind, number: i32)
    requires { Room page.old (kind_text (kind_in kind) number) }
    ensures { Puts page.old (kind_text (kind_in kind) number) page.new }
{
    put_word(page, word_of(kind));
    if is_numbered(kind) {
        page.put_signed(number);
    }
}

// The line of a step; the steps are counted from 1.
pub fn put_line(page: &mut Page, number: u32, x: Printed)
    requires { Room page.old (line_text number (some (printed_of x))) }
    ensures { Puts page.old (line_text number (some (printed_of x))) page.new }
{
    let kind = x.kind;
    page.put_decimal(number as u64);
    page.put_letter(b' ');
    put_position(page, x.position);
    page.put_letter(b' ');
    put_kind(page, kind, x.number);
    page.put_letter(b'\n');
}

// The only line for an image that is refused.
pub fn put_refused(page: &mut Page, n: u8)
    requires { Room page.old (text_of "refused " ++ decimal n ++ text_of "\n") }
    ensures { Puts page.old (text_of "refused " ++ decimal n ++ text_of "\n") page.new }
{
    page.put_bytes(b"refused ");
    page.put_decimal(n as u64);
    page.put_letter(b'\n');
}

// The word of a verdict.
pub fn put_verdict(page: &mut Page, verdict: Verdict)
    requires { Room page.old (verdict_text (verdict_in verdict)) }
    ensures { Puts page.old (verdict_text (verdict_in verdict)) page.new }
{
    put_word(page, word_of_verdict(verdict));
}

// The last line: verdict, steps, next position.
pub fn put_last(page: &mut Page, verdict: Verdict, made: u16, next: u32)
    requires { Room page.old (last_line verdict made next) }
    ensures { Puts page.old (last_line verdict made next) page.new }
{
    put_verdict(page, verdict);
    page.put_lettered(b' ', made as u64);
    page.put_lettered(b' ', next as u64);
    page.put_letter(b'\n');
}
