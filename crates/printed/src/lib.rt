// What a step prints, as document 01's "One run in full" has it: read from the memory before the step is made (reading.rt), the step with
// what it prints (forward.rt), its line as text in a lent buffer (lines.rt), and the whole text for an image (tracing.rt). The definitions
// are those of `rules`, Printed.

#![tactic(auto)]

mod forward; // forward.rt: one step, and what it prints
mod kinds; // kinds.rt: what is printed
mod line_words; // line_words.rt: the words of a line, in one table
mod lines; // lines.rt: a line as text
mod reading; // reading.rt: what the step at a position prints
mod tracing; // tracing.rt: the whole text for an image

pub use forward::step_forward;
pub use kinds::{Kind, Printed};
pub use lines::{put_last, put_line, put_refused, put_verdict};
pub use reading::printed_at;
pub use tracing::{TRACE_LIMIT, trace};
