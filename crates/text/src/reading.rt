// Reading what a text says: where a word ends, a number, bytes in hex.
ghost use Rattle.std.specs.Prelude.{◌≡◌, true, ◌+◌, ◌*◌, ◌/◌, ◌≤◌, ◌<◌, length, leb};
ghost use Rattle.std.proofs.Math.Option.{some};
ghost use Rattle.text.specs.Written.{Written};
ghost use Rattle.text.specs.Digits.{length_before, digit_value, all_digits, value_behind, only_if, number_in, is_hex, hex_bytes};
ghost use Rattle.text.specs.Read.{number_read};

// How many bytes stand in front of the first `stop`; all where there is none, as the definition has it.
pub fn length_before(text: &[u8], stop: u8) -> usize
    ensures is { result ≡ length_before stop text.now }
    ensures within { result ≤ length text.now }
{
    text.iter().position(|b| *b == stop).unwrap_or(text.len())
}

// The value of a digit; 16, as in the definition, for a byte that is none, so that one test against a base serves both.
#[tactic(auto, using(crate::proofs::Words::digit_arms))]
fn digit_value(b: u8) -> u8
    ensures { result ≡ digit_value b }
{
    match b {
        b'0'..=b'9' => b - b'0',
        b'A'..=b'F' => 10 + (b - b'A'),
        b'a'..=b'f' => 10 + (b - b'a'),
        _ => 16,
    }
}

// Each byte is a digit of this base.
fn all_digits(word: &[u8], base: u8) -> bool
    ensures { result ≡ all_digits base word.now }
{
    word.iter().all(|b| digit_value(*b) < base)
}

// A number with one more digit behind it.
fn behind(n: u32, digit: u8) -> u64
    ensures { result ≡ 10 * n + digit_value digit }
{
    10 * u64::from(n) + u64::from(digit_value(digit))
}

// The number that decimal digits mean, unless it passes the limit.
fn value(word: &[u8], limit: u32) -> Option<u32>
    requires { all_digits 10 word.now ≡ true }
    ensures { number_read result ≡ only_if (leb (value_behind 0 word.now) limit) (some (value_behind 0 word.now)) }
{
    let mut n: u32 = 0;
    for digit in word {
        let more = behind(n, *digit);
        if u64::from(limit) < more {
            return None;
        }
        n = more as u32;
    }
    Some(n)
}

// The number that a word means: one or more decimal digits, for at most the limit.
pub fn read_number(word: &[u8], limit: u32) -> Option<u32>
    ensures { number_read result ≡ number_in limit word.now }
{
    if word.is_empty() {
        return None;
    }
    if !all_digits(word, 10) {
        return None;
    }
    value(word, limit)
}

// Two hex digits for each byte, for at least one byte.
pub fn is_hex(word: &[u8]) -> bool
    ensures { result ≡ is_hex word.now }
{
    if word.is_empty() {
        return false;
    }
    if word.len() % 2 != 0 {
        return false;
    }
    all_digits(word, 16)
}

// The byte of two hex digits.
fn join_digits(high: u8, low: u8) -> u8
    requires { (digit_value high < 16) × (digit_value low < 16) }
    ensures { result ≡ 16 * digit_value high + digit_value low }
{
    16 * digit_value(high) + digit_value(low)
}

// The bytes that a hex word means go into a buffer at a place: the place behind them. It reads and doesn't print, so it takes no page.
pub fn read_hex(out: &mut [u8], at: usize, word: &[u8]) -> usize
    requires hex { is_hex word.now ≡ true }
    requires room { at + length word.now / 2 ≤ length out.old }
    ensures { Written out.old at (hex_bytes word.now) out.new result }
{
    let count = word.len() / 2;
    for i in 0..count {
        out[at + i] = join_digits(word[2 * i], word[2 * i + 1]);
    }
    at + count
}
