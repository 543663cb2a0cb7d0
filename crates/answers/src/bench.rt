// The answers of the bench: the state memory in words and in bytes, bytes written into it, a remark, and a line that is not understood.
// What each says and does is defined in specs/Answers.antt; a function asks for just the room that its answer takes.
ghost use Rattle.std.specs.Prelude.{◌≡◌, ◌≤◌, length};
ghost use Rattle.rules.specs.Layout.{state_size};
ghost use Rattle.text.specs.Page.{Room, Puts};
ghost use Rattle.answers.specs.Sizes.{byte_size};
ghost use Rattle.answers.specs.Answers.{dump_answered, peek_answered, poke_answered, poked, remark_answered, unknown_answered};

use crate::lines::{front, put_hex_line, put_refusal_line};
use commands::LINE_LIMIT;
use rules::Refusal;
use rules::offsets::STATE_SIZE;
use text::{Page, length_before};

const SPACE: u8 = 32;

// `dump`: the state in words, 1 where the memory is not sound.
pub fn dump(state: &[u8], page: &mut Page)
    requires state_len { length state.now ≡ state_size }
    requires room { Room page.old (dump_answered state.now) }
    ensures { Puts page.old (dump_answered state.now) page.new }
{
    if !soundness::is_sound(state) {
        return put_refusal_line(page, b"dump: refused ", Refusal::Unsound);
    }
    dump::put_state(page, state);
}

// `peek AT COUNT`: bytes of the memory in hex.
pub fn peek(at: u32, count: u32, state: &[u8], page: &mut Page)
    requires state_len { length state.now ≡ state_size }
    requires room { Room page.old (peek_answered state.now at count) }
    ensures { Puts page.old (peek_answered state.now at count) page.new }
{
    let from = at as usize;
    let to = from + count as usize;
    if STATE_SIZE < to {
        return page.put_bytes(b"peek: out of range\n");
    }
    put_hex_line(page, &state[from..to]);
}

// `poke AT HEX`: bytes go into the memory.
pub fn poke(at: u32, bytes: &[u8], state: &mut [u8], page: &mut Page)
    requires state_len { (length state.old ≡ state_size) × (length bytes.now ≤ byte_size) }
    requires room { Room page.old (poke_answered state.old at bytes.now) }
    ensures says { Puts page.old (poke_answered state.old at bytes.now) page.new }
    ensures leaves { state.new ≡ poked state.old at bytes.now }
{
    let from = at as usize;
    if STATE_SIZE < from + bytes.len() {
        return page.put_bytes(b"poke: out of range\n");
    }
    words::copy(bytes, state, from);
    page.put_bytes(b"poke: ok\n");
}

// `#`, and anything behind it: the line itself.
pub fn remark(line: &[u8], page: &mut Page)
    requires { Room page.old (remark_answered line.now) }
    ensures { Puts page.old (remark_answered line.now) page.new }
{
    page.put_bytes(line);
    page.put_bytes(b"\n");
}

// What is not understood: the line's first word.
pub fn unknown(line: &[u8], page: &mut Page)
    requires { Room page.old (unknown_answered line.now) }
    ensures { Puts page.old (unknown_answered line.now) page.new }
{
    let n = length_before(line, SPACE);
    page.put_bytes(b"? ");
    page.put_bytes(front(&line[..n], LINE_LIMIT));
    page.put_bytes(b"\n");
}
