// The operands of an instruction, read from the code: byte k of the instruction at a place, a place in two bytes and a signed number in
// four, high byte first. Each asks only that its bytes lie in the code.
ghost use Rattle.std.specs.Prelude.{◌≡◌, ◌+◌, ◌*◌, ◌<◌, length};
ghost use Rattle.rules.specs.Instruction.{byte_at, place_at, signed_at};
ghost use Rattle.rules.specs.Numbers.{slot_number};

use rules::Slot;

// std's `from_be_bytes` with a promise over numbers, which the readers of operands cite.
pub fn join16(high: u8, low: u8) -> u16
    ensures { result ≡ 256 * high + low }
{
    u16::from_be_bytes([high, low])
}

// Two places read as one word: from places and not from bytes, as document 01's 32-bit operands are read in `rules`.
fn join32(high: u16, low: u16) -> u32
    ensures { result ≡ 65536 * high + low }
{
    65536 * u32::from(high) + u32::from(low)
}

pub fn byte_at(code: &[u8], place: usize, k: usize) -> u8
    requires { place + k < length code.now }
    ensures { result ≡ byte_at code.now place k }
{
    code[place + k]
}

pub fn slot_at(code: &[u8], place: usize, k: usize) -> Slot
    requires { place + k < length code.now }
    ensures { slot_number result ≡ byte_at code.now place k }
{
    Slot(code[place + k])
}

pub fn place_at(code: &[u8], place: usize, k: usize) -> u16
    requires { place + (k + 1) < length code.now }
    ensures { result ≡ place_at code.now place k }
{
    join16(byte_at(code, place, k), byte_at(code, place, k + 1))
}

pub fn signed_at(code: &[u8], place: usize, k: usize) -> i32
    requires { place + (k + 3) < length code.now }
    ensures { result ≡ signed_at code.now place k }
{
    join32(place_at(code, place, k), place_at(code, place, k + 2)).cast_signed()
}
