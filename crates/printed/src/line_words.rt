// The words of a line as one table: the names of the instructions in the order of document 01's table, what is delivered at an end, and
// the verdicts.
ghost use Rattle.std.specs.Prelude.{◌≡◌, ◌+◌, ◌≤◌, ◌<◌, length};
ghost use Rattle.text.specs.Page.{Room, Puts};
ghost use Rattle.printed.specs.Meaning.{row_of};
ghost use Rattle.printed.specs.Words.{letters, line_words, word_count, word_text, word_of, is_numbered, word_of_verdict};

use crate::kinds::Kind;
use runner::Verdict;
use text::Page;

static WORDS: [&[u8]; 24] = [
    b"cst",
    b"access",
    b"store",
    b"add",
    b"mul",
    b"leq",
    b"put",
    b"get",
    b"split",
    b"fork",
    b"plug",
    b"close",
    b"halt",
    b"same",
    b"hput",
    b"hcase",
    b"run",
    b"value ",
    b"handle ",
    b"split",
    b"close",
    b"spent",
    b"finished",
    b"stuck",
];

// The table where it stands.
fn words() -> &'static [&'static [u8]; 24]
    ensures { letters result.now ≡ line_words }
{
    &WORDS
}

// The word in a row.
fn word(row: u8) -> &'static [u8]
    requires { row < word_count }
    ensures { result.now ≡ word_text row }
{
    words()[row as usize]
}

// The word in a row goes onto a page.
pub fn put_word(page: &mut Page, row: u8)
    requires { (row < word_count) × Room page.old (word_text row) }
    ensures { Puts page.old (word_text row) page.new }
{
    page.put_bytes(word(row));
}

// The row of an instruction's name, by its first byte. A byte that begins no instruction is never shown, and has one of them too.
fn row_of(first: u8) -> u8
    ensures { result ≡ row_of first }
{
    if first < 16 {
        return (first + 5) % 6;
    }
    6 + (first - 16) % 11
}

// The row of the word that a kind begins with.
pub fn word_of(kind: Kind) -> u8
    ensures { result ≡ word_of kind }
{
    match kind {
        Kind::Instruction(first) => row_of(first),
        Kind::Value => 17,
        Kind::Handle => 18,
        Kind::Split => 19,
        Kind::Close => 20,
    }
}

// A number stands behind the word.
pub fn is_numbered(kind: Kind) -> bool
    ensures { result ≡ is_numbered kind }
{
    matches!(kind, Kind::Value | Kind::Handle)
}

// The row of a verdict's word.
pub fn word_of_verdict(verdict: Verdict) -> u8
    ensures { result ≡ word_of_verdict verdict }
{
    match verdict {
        Verdict::Spent => 21,
        Verdict::Finished => 22,
        Verdict::Stuck => 23,
    }
}
