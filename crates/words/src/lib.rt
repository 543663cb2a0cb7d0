// Numbers in a slice of bytes: read and written at an offset, the low byte first, and where a name ends in `_high` the high byte first.
// Each function asks that its bytes lie within the slice: its callers prove that. A write leaves all other bytes as they were.

#![tactic(auto)]

ghost use Rattle.std.specs.Prelude.{◌≡◌, ◌+◌, ◌≤◌, ◌<◌, length, get_or, set, take, drop};
ghost use Rattle.std.specs.Int.{w32};
ghost use Rattle.std.proofs.Common.{to_z, of_z};
ghost use Rattle.rules.specs.Bytes.{number_at, bytes_of};
ghost use Rattle.words.specs.Parts.{put_at, high_at, high_bytes};

pub fn get8(m: &[u8], at: usize) -> u8
    requires { at < length m.now }
    ensures { result ≡ get_or m.now at 0 }
{
    m[at]
}

// The N bytes from `at` on, as an array: what std's conversions read.
fn part<const N: usize>(m: &[u8], at: usize) -> [u8; N]
    requires { at + N ≤ length m.now }
    ensures { result ≡ take N (drop at m.now) }
{
    let mut bytes = [0; N];
    bytes.copy_from_slice(&m[at..at + N]);
    bytes
}

// A function for each type, each a line over that type's conversion of std: a trait of them would hold the same lines, in an impl for each.
pub fn get16(m: &[u8], at: usize) -> u16
    requires { at + 2 ≤ length m.now }
    ensures { result ≡ number_at 2 m.now at }
{
    u16::from_le_bytes(part(m, at))
}

pub fn get32(m: &[u8], at: usize) -> u32
    requires { at + 4 ≤ length m.now }
    ensures { result ≡ number_at 4 m.now at }
{
    u32::from_le_bytes(part(m, at))
}

pub fn get64(m: &[u8], at: usize) -> u64
    requires { at + 8 ≤ length m.now }
    ensures { result ≡ number_at 8 m.now at }
{
    u64::from_le_bytes(part(m, at))
}

pub fn get16_high(m: &[u8], at: usize) -> u16
    requires { at + 2 ≤ length m.now }
    ensures { result ≡ high_at m.now at }
{
    u16::from_be_bytes(part(m, at))
}

pub fn put8(m: &mut [u8], at: usize, n: u8)
    requires { at < length m.old }
    ensures { m.new ≡ set m.old at n }
{
    m[at] = n;
}

pub fn put16(m: &mut [u8], at: usize, n: u16)
    requires { at + 2 ≤ length m.old }
    ensures { m.new ≡ put_at m.old at (bytes_of 2 n) }
{
    copy(&u16::to_le_bytes(n), m, at);
}

pub fn put32(m: &mut [u8], at: usize, n: u32)
    requires { at + 4 ≤ length m.old }
    ensures { m.new ≡ put_at m.old at (bytes_of 4 n) }
{
    copy(&u32::to_le_bytes(n), m, at);
}

pub fn put64(m: &mut [u8], at: usize, n: u64)
    requires { at + 8 ≤ length m.old }
    ensures { m.new ≡ put_at m.old at (bytes_of 8 n) }
{
    copy(&u64::to_le_bytes(n), m, at);
}

pub fn put16_high(m: &mut [u8], at: usize, n: u16)
    requires { at + 2 ≤ length m.old }
    ensures { m.new ≡ put_at m.old at (high_bytes n) }
{
    copy(&u16::to_be_bytes(n), m, at);
}

pub fn get_signed(m: &[u8], at: usize) -> i32
    requires { at + 4 ≤ length m.now }
    ensures { result ≡ to_z w32 (number_at 4 m.now at) }
{
    get32(m, at).cast_signed()
}

pub fn put_signed(m: &mut [u8], at: usize, n: i32)
    requires { at + 4 ≤ length m.old }
    ensures { m.new ≡ put_at m.old at (bytes_of 4 (of_z w32 n)) }
{
    put32(m, at, n.cast_unsigned());
}

// All of `bytes` goes into m from `at` on, one after the other: std's copy of a length that shows only as it runs calls memmove, which the
// archive for C would then want of its host beside memcpy and memset.
pub fn copy(bytes: &[u8], m: &mut [u8], at: usize)
    requires { at + length bytes.now ≤ length m.old }
    ensures { m.new ≡ put_at m.old at bytes.now }
{
    for (i, byte) in bytes.iter().enumerate() {
        m[at + i] = *byte;
    }
}
