// What the items at the heads of two queues make, before the waiting record is looked at: a value or a handle against a wait, a split
// against a wait, close against close; all else does not match.
ghost use Rattle.rules.specs.Numbers.{end_number, record_number};
ghost use Rattle.rules.specs.State.{datum as datum_item, last, split_item, close_item, wait_item};
ghost use Rattle.ends.specs.Items.{item_of};
ghost use Rattle.meetings.specs.Heads.{datum_of, Makes};

use ends::Item;
use rules::{End, Record};

// What is put on a queue and taken from it.
#[derive(Clone, Copy)]
pub enum Datum {
    Value(i32),
    Handle(u8),
}

// What two heads that match make. The registers that a record runs on with are not in here: what it wants is looked at when the step is
// made.
#[derive(Clone, Copy)]
pub enum Meeting {
    // the datum at the head of `from` meets the wait of a record at the head of `to`
    Delivers {
        from: End,
        to: End,
        datum: Datum,
        record: Record,
    },
    // a split with a first and a second end meets the wait of a record
    Divides {
        first: End,
        second: End,
        record: Record,
    },
    Closes,
}

// A datum at the head of e, an item at the head of f.
fn datum_meets(e: End, f: End, datum: Datum, y: Item) -> Option<Meeting>
    ensures { Makes (end_number e) (end_number f) (datum_item (datum_of datum)) (item_of y) result }
{
    let Item::Wait(r) = y else {
        return None;
    };
    Some(Meeting::Delivers {
        from: e,
        to: f,
        datum,
        record: r,
    })
}

// A split at the head of e, an item at the head of f.
fn split_meets(e: End, f: End, first: End, second: End, y: Item) -> Option<Meeting>
    ensures { Makes (end_number e) (end_number f) (last (split_item (end_number first) (end_number second))) (item_of y) result }
{
    let Item::Wait(r) = y else {
        return None;
    };
    Some(Meeting::Divides {
        first,
        second,
        record: r,
    })
}

// A close at the head of e, an item at the head of f.
fn close_meets(e: End, f: End, y: Item) -> Option<Meeting>
    ensures { Makes (end_number e) (end_number f) (last close_item) (item_of y) result }
{
    if let Item::Close = y {
        return Some(Meeting::Closes);
    }
    None
}

// The wait of a record at the head of e, an item at the head of f.
fn wait_meets(e: End, f: End, r: Record, y: Item) -> Option<Meeting>
    ensures { Makes (end_number e) (end_number f) (last (wait_item (record_number r))) (item_of y) result }
{
    match y {
        Item::Value(v) => Some(Meeting::Delivers {
            from: f,
            to: e,
            datum: Datum::Value(v),
            record: r,
        }),
        Item::Handle(n) => Some(Meeting::Delivers {
            from: f,
            to: e,
            datum: Datum::Handle(n),
            record: r,
        }),
        Item::Split(first, second) => Some(Meeting::Divides {
            first,
            second,
            record: r,
        }),
        Item::Close => None,
        Item::Wait(_) => None,
    }
}

// What x at the head of e and y at the head of f make, where they match.
pub fn meeting_of(e: End, f: End, x: Item, y: Item) -> Option<Meeting>
    ensures { Makes (end_number e) (end_number f) (item_of x) (item_of y) result }
{
    match x {
        Item::Value(v) => datum_meets(e, f, Datum::Value(v), y),
        Item::Handle(n) => datum_meets(e, f, Datum::Handle(n), y),
        Item::Split(first, second) => split_meets(e, f, first, second, y),
        Item::Close => close_meets(e, f, y),
        Item::Wait(r) => wait_meets(e, f, r, y),
    }
}
