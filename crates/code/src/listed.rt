// What an instruction lists behind its fixed part, read from the code where it is needed: the places of an hcase and the slots of a run.
// For every slice and every place; a byte past the code is read as 0, as the definitions have it.
ghost use Rattle.std.specs.Prelude.{◌≡◌, ◌+◌, ◌*◌};
ghost use Rattle.rules.specs.Instruction.{byte_at, place_at};
ghost use Rattle.rules.specs.Numbers.{slot_number};

use crate::operands::{byte_at, join16};
use rules::Slot;

fn byte_or_zero(code: &[u8], place: usize, k: usize) -> u8
    ensures { result ≡ byte_at code.now place k }
{
    if code.len() <= place {
        return 0;
    }
    if code.len() - place <= k {
        return 0;
    }
    byte_at(code, place, k)
}

// Place n, from 0, of the hcase at a place.
pub fn case_place(code: &[u8], place: usize, n: u8) -> u16
    ensures { result ≡ place_at code.now place (3 + 2 * n) }
{
    let k = 3 + 2 * (n as usize);
    join16(
        byte_or_zero(code, place, k),
        byte_or_zero(code, place, k + 1),
    )
}

// Listed slot i, from 0, of the run at a place.
pub fn listed_slot(code: &[u8], place: usize, i: u8) -> Slot
    ensures { slot_number result ≡ byte_at code.now place (5 + i) }
{
    Slot(byte_or_zero(code, place, 5 + i as usize))
}
