// Bytes and numbers as text, for the programs: printing onto a page, which is a lent buffer with a place in it, and reading what a line
// says. A function asks for the room that it needs (specs/Page.antt); what is printed is defined in `rules` (specs/Text.antt) and
// specs/Written.antt, what a text says in specs/Digits.antt.

#![tactic(auto)]

mod printing;
mod reading;

pub use printing::Page;
pub use reading::{is_hex, length_before, read_hex, read_number};
