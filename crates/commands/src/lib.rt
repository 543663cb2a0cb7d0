// What a line asks the console for. A line is understood exactly as specs/Asked.antt says; the bytes of a hex word go to the front of a
// lent buffer, and the command says how many they are.

#![tactic(auto)]

ghost use Rattle.std.specs.Prelude.{◌≡◌, List, [], ℕ, ◌/◌, ◌≤◌, ◌<◌, length, take, MatchOption};
ghost use Rattle.text.specs.Digits.{length_before, number_in};
ghost use Rattle.commands.specs.Asked.{asked, line_limit, number_limit, space, is_remark, name_in, bare_asked, full_asked};
ghost use Rattle.commands.specs.Asked.{first_word, behind_word, with_number, with_numbers, with_bytes};
ghost use Rattle.commands.specs.declared.Name.TheVariants as Name;
ghost use Rattle.commands.specs.Meaning.{meaning, command_asked, byte_count, bytes_in, asks, first_limit};

use text::{is_hex, length_before, read_hex, read_number};

// The characters that a line may have.
pub const LINE_LIMIT: usize = 40000;

// The largest number, and the largest budget.
const NUMBER_LIMIT: u32 = 4294967295;

const BUDGET_LIMIT: u32 = 65535;

const SPACE: u8 = 32;

// The sign that a remark begins with.
const REMARK_SIGN: u8 = b'#';

// A command that is understood.
#[derive(Clone, Copy)]
pub enum Command {
    // a line for whoever reads the script
    Remark,
    // how many bytes the image has, or the code
    Load(usize),
    Write(usize),
    Record(u32),
    End(u32),
    // the budget and the start position
    Run(u16, u32),
    Free,
    Dump,
    // where, and how many bytes
    Peek(u32, u32),
    Poke(u32, usize),
}

// The name of a command that takes words.
#[derive(Clone, Copy)]
pub enum Name {
    Load,
    Write,
    Record,
    End,
    Run,
    Peek,
    Poke,
}

// A command with no word behind its name. The names are compared one by one: an arm of a `match` on byte strings tells a proof only how
// long the word is.
fn bare(word: &[u8]) -> Option<Command>
    ensures is { (bytes : List ℕ) → meaning bytes result ≡ bare_asked word.now }
    ensures within { byte_count result ≡ 0 }
{
    if word == b"load".as_slice() {
        return Some(Command::Load(0));
    }
    if word == b"write".as_slice() {
        return Some(Command::Write(0));
    }
    if word == b"free".as_slice() {
        return Some(Command::Free);
    }
    if word == b"dump".as_slice() {
        return Some(Command::Dump);
    }
    None
}

// The command that a word names.
fn name_in(word: &[u8]) -> Option<Name>
    ensures { result ≡ name_in word.now }
{
    if word == b"load".as_slice() {
        return Some(Name::Load);
    }
    if word == b"write".as_slice() {
        return Some(Name::Write);
    }
    if word == b"R".as_slice() {
        return Some(Name::Record);
    }
    if word == b"E".as_slice() {
        return Some(Name::End);
    }
    if word == b"run".as_slice() {
        return Some(Name::Run);
    }
    if word == b"peek".as_slice() {
        return Some(Name::Peek);
    }
    if word == b"poke".as_slice() {
        return Some(Name::Poke);
    }
    None
}

// The command of a name with its numbers, the last of them the second, and how many bytes its hex word has.
fn named(name: Name, first: u32, second: u32, n: usize) -> Command
    requires { first ≤ first_limit name }
    ensures is { (bytes : List ℕ) → command_asked bytes result ≡ asks name first second (take n bytes) }
    ensures within { bytes_in result ≤ n }
{
    match name {
        Name::Load => Command::Load(n),
        Name::Write => Command::Write(n),
        Name::Record => Command::Record(second),
        Name::End => Command::End(second),
        Name::Run => Command::Run(first as u16, second),
        Name::Peek => Command::Peek(first, second),
        Name::Poke => Command::Poke(first, n),
    }
}

// A hex word behind a name, or behind its first number: the bytes go to the front of the buffer.
fn with_bytes(name: Name, first: u32, word: &[u8], bytes: &mut [u8]) -> Option<Command>
    requires { (first ≤ first_limit name) × (length word.now / 2 ≤ length bytes.old) }
    ensures is { meaning bytes.new result ≡ with_bytes word.now (asks name first 0) }
    ensures within { byte_count result ≤ length bytes.new }
{
    if !is_hex(word) {
        return None;
    }
    let count = read_hex(bytes, 0, word);
    Some(named(name, first, 0, count))
}

// A number behind a name, or behind its first number.
fn with_number(name: Name, first: u32, word: &[u8]) -> Option<Command>
    requires { first ≤ first_limit name }
    ensures is { (bytes : List ℕ) → meaning bytes result
        ≡ with_number (number_in number_limit word.now) (λ second. asks name first second []) }
    ensures within { byte_count result ≡ 0 }
{
    let second = read_number(word, NUMBER_LIMIT)?;
    Some(named(name, first, second, 0))
}

// The word in front of the first space, and what stands behind that.
fn split_word(words: &[u8]) -> Option<(&[u8], &[u8])>
    ensures { MatchOption result (length_before space words.now ≡ length words.now)
        (λ parts. (length_before space words.now < length words.now) × (parts.0.now ≡ first_word words.now)
        × (parts.1.now ≡ behind_word words.now)) }
{
    let n = length_before(words, SPACE);
    if n == words.len() {
        return None;
    }
    Some((&words[..n], &words[n + 1..]))
}

// Two numbers behind a name, the first within a limit.
fn with_numbers(name: Name, limit: u32, words: &[u8]) -> Option<Command>
    requires { limit ≤ first_limit name }
    ensures is { (bytes : List ℕ) → meaning bytes result
        ≡ with_numbers limit words.now (λ first second. asks name first second []) }
    ensures within { byte_count result ≡ 0 }
{
    let (word, behind) = split_word(words)?;
    let first = read_number(word, limit)?;
    with_number(name, first, behind)
}

// A poke: where, then the bytes.
fn poke(words: &[u8], bytes: &mut [u8]) -> Option<Command>
    requires { length words.now / 2 ≤ length bytes.old }
    ensures is { meaning bytes.new result ≡ full_asked Name.Poke words.now }
    ensures within { byte_count result ≤ length bytes.new }
{
    let (word, behind) = split_word(words)?;
    let at = read_number(word, NUMBER_LIMIT)?;
    with_bytes(Name::Poke, at, behind, bytes)
}

// A command with words behind its name.
fn full(name: Name, words: &[u8], bytes: &mut [u8]) -> Option<Command>
    requires { length words.now / 2 ≤ length bytes.old }
    ensures is { meaning bytes.new result ≡ full_asked name words.now }
    ensures within { byte_count result ≤ length bytes.new }
{
    match name {
        Name::Load => with_bytes(Name::Load, 0, words, bytes),
        Name::Write => with_bytes(Name::Write, 0, words, bytes),
        Name::Record => with_number(Name::Record, 0, words),
        Name::End => with_number(Name::End, 0, words),
        Name::Run => with_numbers(Name::Run, BUDGET_LIMIT, words),
        Name::Peek => with_numbers(Name::Peek, NUMBER_LIMIT, words),
        Name::Poke => poke(words, bytes),
    }
}

// Whether a line is for whoever reads the script.
fn is_remark(line: &[u8]) -> bool
    ensures { result ≡ is_remark line.now }
{
    if line.is_empty() {
        return false;
    }
    line[0] == REMARK_SIGN
}

// What a line asks for; none, where it is not understood.
pub fn parse(line: &[u8], bytes: &mut [u8]) -> Option<Command>
    requires { line_limit / 2 ≤ length bytes.old }
    ensures is { meaning bytes.new result ≡ asked line.now }
    ensures within { byte_count result ≤ length bytes.new }
{
    if LINE_LIMIT < line.len() {
        return None;
    }
    if is_remark(line) {
        return Some(Command::Remark);
    }
    let Some((word, behind)) = split_word(line) else {
        return bare(line);
    };
    let name = name_in(word)?;
    full(name, behind, bytes)
}
