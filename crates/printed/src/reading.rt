// What the step at a position prints, read from the memory before the step is made. Whether the position can step is not tested here:
// where it cannot, the answer says nothing, and who asks makes the step itself to know.
ghost use Rattle.std.specs.Prelude.{◌≡◌, ℕ, ◌≤◌, ◌<◌, length, pos};
ghost use Rattle.std.proofs.Math.Option.{some};
ghost use Rattle.rules.specs.Limits.{record_count, position_count};
ghost use Rattle.rules.specs.State.{State};
ghost use Rattle.rules.specs.EndStep.{meet_heads};
ghost use Rattle.rules.specs.Printed.{printed, printed_meeting, close_kind, Printed as PrintedByRules};
ghost use Rattle.rules.specs.Layout.{state_size, view};
ghost use Rattle.keeping.specs.Demand3.{SoundMemory};
ghost use Rattle.ends.specs.Items.{item_of};
ghost use Rattle.printed.specs.Meaning.{PrintsAt, printed_of, item_printed};

use crate::kinds::{Kind, Printed};
use ends::Item;
use rules::{End, RECORD_COUNT, Record};

// Two closes, at an end. The same stands where a position cannot step: there it is never shown.
fn closed(position: u32) -> Printed
    ensures { printed_of result ≡ printed position close_kind (pos 0) }
{
    Printed {
        position,
        kind: Kind::Close,
        number: 0,
    }
}

// The instruction at the record's place.
fn of_record(m: &[u8], position: u32) -> Printed
    requires { (length m.now ≡ state_size) × (position < record_count) × SoundMemory m.now }
    ensures { PrintsAt (view m.now) position result }
{
    let place = registers::place_of(m, Record(position as u8)) as usize;
    let code = stepping::code(m);
    if code.len() <= place {
        return closed(position);
    }
    Printed {
        position,
        kind: Kind::Instruction(code[place]),
        number: 0,
    }
}

// What an item prints that is taken from the head of a queue. A wait prints nothing, so what stands for it here is never shown.
fn of_item(position: u32, item: Item) -> Printed
    ensures { printed_of result ≡ item_printed position (item_of item) }
{
    match item {
        Item::Value(v) => Printed {
            position,
            kind: Kind::Value,
            number: v,
        },
        Item::Handle(n) => Printed {
            position,
            kind: Kind::Handle,
            number: n as i32,
        },
        Item::Split(_, _) => Printed {
            position,
            kind: Kind::Split,
            number: 0,
        },
        Item::Close => closed(position),
        Item::Wait(_) => closed(position),
    }
}

// What two items at the heads of a pair print: the one that is no wait tells.
fn of_items(position: u32, x: Item, y: Item) -> Printed
    ensures { (st : State) (e f : ℕ) (z : PrintedByRules)
        → printed_meeting position (meet_heads st e f (some (item_of x)) (some (item_of y))) ≡ some z → printed_of result ≡ z }
{
    if let Item::Wait(_) = x {
        return of_item(position, y);
    }
    of_item(position, x)
}

// What was delivered, divided or closed at an end.
fn of_end(m: &[u8], position: u32) -> Printed
    requires { (length m.now ≡ state_size) × (record_count ≤ position) × (position < position_count) × SoundMemory m.now }
    ensures { PrintsAt (view m.now) position result }
{
    let e = End((position - RECORD_COUNT as u32) as u8);
    let Some(x) = ends::head(m, e) else {
        return closed(position);
    };
    let Some(y) = ends::head(m, ends::partner(m, e)) else {
        return closed(position);
    };
    of_items(position, x, y)
}

// What the step at a position prints, if the position can step.
pub fn printed_at(m: &[u8], position: u32) -> Printed
    requires { (length m.now ≡ state_size) × (position < position_count) × SoundMemory m.now }
    ensures { PrintsAt (view m.now) position result }
{
    if position < RECORD_COUNT as u32 {
        return of_record(m, position);
    }
    of_end(m, position)
}
