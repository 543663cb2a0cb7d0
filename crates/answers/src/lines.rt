// The parts of an answer, put on a page. Each function asks for just the room that its text takes.
ghost use Rattle.std.specs.Prelude.{◌≡◌, ◌++◌, ◌+◌, ◌≤◌, length, take};
ghost use Rattle.rules.specs.Text.{text as text_of};
ghost use Rattle.rules.specs.Numbers.{refusal_number};
ghost use Rattle.rules.specs.Printed.{verdict_text};
ghost use Rattle.text.specs.Page.{Room, Puts};
ghost use Rattle.printed.specs.Meaning.{verdict_in};
ghost use Rattle.answers.specs.Answers.{number_line, hex_line};

use printed::put_verdict;
use rules::Refusal;
use runner::Verdict;
use text::Page;

// The first n bytes, or all where there are fewer.
pub fn front(bytes: &[u8], n: usize) -> &[u8]
    ensures { result.now ≡ take n bytes.now }
{
    if n < bytes.len() {
        return &bytes[..n];
    }
    bytes
}

// A word, a number and the line's end.
pub fn put_number_line(page: &mut Page, word: &[u8], n: u64)
    requires { Room page.old (number_line word.now n) }
    ensures { Puts page.old (number_line word.now n) page.new }
{
    page.put_bytes(word);
    page.put_decimal(n);
    page.put_bytes(b"\n");
}

// What is said of a request that is refused: a word, the number of the refusal, and the line's end.
pub fn put_refusal_line(page: &mut Page, word: &[u8], refusal: Refusal)
    requires { Room page.old (number_line word.now (refusal_number refusal)) }
    ensures { Puts page.old (number_line word.now (refusal_number refusal)) page.new }
{
    put_number_line(page, word, refusal.number() as u64);
}

// Bytes in hex and the line's end.
pub fn put_hex_line(page: &mut Page, bytes: &[u8])
    requires { Room page.old (hex_line bytes.now) }
    ensures { Puts page.old (hex_line bytes.now) page.new }
{
    page.put_hex(bytes);
    page.put_bytes(b"\n");
}

// A verdict behind a space, and the line's end.
pub fn put_verdict_line(page: &mut Page, verdict: Verdict)
    requires { Room page.old (text_of " " ++ verdict_text (verdict_in verdict) ++ text_of "\n") }
    ensures { Puts page.old (text_of " " ++ verdict_text (verdict_in verdict) ++ text_of "\n") page.new }
{
    page.put_bytes(b" ");
    put_verdict(page, verdict);
    page.put_bytes(b"\n");
}
