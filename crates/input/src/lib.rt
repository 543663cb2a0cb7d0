// An input as a whole, read into a lent buffer, and the buffers of the programs.

#![tactic(auto)]

ghost use Rattle.std.specs.Prelude.{◌≡◌, ℕ, ◌≤◌, ◌<◌, length, get_or, take, IfOk};
ghost use Rattle.std.specs.Io.KnownBytes.{Consumes, IsAtEnd};

use std::io::{self, Read};

// One byte more than the longest image has, to see an input that is longer.
pub const IMAGE_ROOM: usize = 8193;

// A buffer of a program: its length is what lending it needs. A function of its own, so that no proof looks into an array of this length.
pub fn zeros<const N: usize>() -> [u8; N]
    ensures size { N ≡ length result }
    ensures values { (i : ℕ) → get_or result i 0 ≡ 0 }
{
    [0; N]
}

// Reads until the buffer is full or the input ends, and says how many bytes there are.
pub fn read_full<R: Read>(reader: &mut R, buffer: &mut [u8]) -> io::Result<usize>
    ensures in_bounds { IfOk result (λ n. n ≤ length buffer.new) }
    ensures bytes { IfOk result (λ n. Consumes (R.remaining reader.old) (R.remaining reader.new) (take n buffer.new)) }
    ensures whole { IfOk result (λ n. n < length buffer.new → IsAtEnd (R.remaining reader.new)) }
{
    // a `while`, since what a read gives is not known before: no range has these places
    let mut n = 0;
    while n < buffer.len() {
        let got = reader.read(&mut buffer[n..])?;
        if got == 0 {
            return Ok(n);
        }
        n += got;
    }
    Ok(n)
}
