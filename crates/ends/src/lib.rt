// The ends of the state memory: the free ends as one word, the items of a queue, one end read, and its changes. Each function works on the
// lent memory, and its contract speaks of the state whose layout that memory is; nothing above this crate needs the bytes.

#![tactic(auto)]

mod change;
mod item;
mod reading;
mod section;
pub mod word;

pub use change::{append, free, pair, set_partner, take_head};
pub use item::Item;
pub use reading::{empty_from, free_word, head, is_free, item_at, partner, queued};
