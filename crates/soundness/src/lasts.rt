// The last item of an end's queue, where it is a split, a close or a wait.
ghost use Rattle.std.specs.Prelude.{◌≡◌, true, ◌<◌, length};
ghost use Rattle.rules.specs.Limits.{end_count};
ghost use Rattle.rules.specs.State.{end_at, last_of};
ghost use Rattle.rules.specs.SoundTest.{last_within};
ghost use Rattle.rules.specs.Layout.{state_size, view};
ghost use Rattle.canonical.specs.Canonical.{end_test};
ghost use Rattle.soundness.specs.Lasts.{last_meaning, is_item, last_in};

use rules::offsets::{CELL_SIZE, COUNTS_AT, QUEUE_SIZE, QUEUES_AT};
use rules::{End, Record};
use words::get64;

#[derive(Clone, Copy)]
pub enum Last {
    Split(End, End),
    Close,
    Wait(Record),
}

// The payload of an item as the byte that it is: who asks has tested the cell.
fn narrow(n: u64) -> u8
    requires { n < 256 }
    ensures { result ≡ n }
{
    n as u8
}

// What a queue's last cell says.
fn last_in(cell: u64) -> Option<Last>
    requires { is_item cell ≡ true }
    ensures is { last_meaning result ≡ last_in cell }
    ensures within { last_within (last_meaning result) ≡ true }
{
    let payload = cell / 256;
    match cell % 256 {
        3 => Some(Last::Split(End(narrow(payload % 256)), End(narrow(payload / 256)))),
        4 => Some(Last::Close),
        5 => Some(Last::Wait(Record(narrow(payload)))),
        _ => None,
    }
}

pub fn last_of(m: &[u8], e: usize) -> Option<Last>
    requires { (length m.now ≡ state_size) × (e < end_count) × (end_test m.now e ≡ true) }
    ensures is { last_meaning result ≡ last_of (end_at (view m.now) e) }
    ensures within { last_within (last_meaning result) ≡ true }
{
    let count = usize::from(m[COUNTS_AT + e]);
    if count == 0 {
        return None;
    }
    let at = QUEUES_AT + QUEUE_SIZE * e + CELL_SIZE * (count - 1);
    last_in(get64(m, at))
}
