// An item of a queue, and the cell that it stands in: the kind in the low byte, above it the payload.
ghost use Rattle.std.specs.Prelude.{◌≡◌};
ghost use Rattle.ends.specs.Items.{item_of, head_in, item_cell, cell_item};

use rules::{End, Record};

// A value, a handle, a split with two ends, a close, or a wait naming a record.
#[derive(Clone, Copy)]
pub enum Item {
    Value(i32),
    Handle(u8),
    Split(End, End),
    Close,
    Wait(Record),
}

// The cell of an item.
pub fn cell_of(item: Item) -> u64
    ensures { result ≡ item_cell (item_of item) }
{
    match item {
        Item::Value(v) => 1 + 256 * u64::from(v.cast_unsigned()),
        Item::Handle(n) => 2 + 256 * (n as u64),
        Item::Split(p, q) => 3 + 256 * (p.0 as u64 + 256 * (q.0 as u64)),
        Item::Close => 4,
        Item::Wait(r) => 5 + 256 * (r.0 as u64),
    }
}

// The item of a cell; a cell of another kind has none.
pub fn item_in(cell: u64) -> Option<Item>
    ensures { head_in result ≡ cell_item cell }
{
    let payload = cell / 256;
    match cell % 256 {
        1 => Some(Item::Value(((payload % 4294967296) as u32).cast_signed())),
        2 => Some(Item::Handle((payload % 256) as u8)),
        3 => Some(Item::Split(End((payload % 256) as u8), End((payload / 256 % 256) as u8))),
        4 => Some(Item::Close),
        5 => Some(Item::Wait(Record((payload % 256) as u8))),
        _ => None,
    }
}
