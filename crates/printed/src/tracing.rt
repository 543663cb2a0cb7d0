// All that the printing program writes for an image, into a lent buffer that has room for the longest: a line for each step of the run
// from position 0, then the verdict; or one line for an image that is refused. The text is `trace_text` of `rules`, whatever the image.
ghost use Rattle.std.specs.Prelude.{◌≡◌, ◌+◌, ◌≤◌, length};
ghost use Rattle.rules.specs.Run.{steps};
ghost use Rattle.rules.specs.Printed.{trace_budget, run_text, trace_text};
ghost use Rattle.rules.specs.Layout.{view};
ghost use Rattle.keeping.specs.Demand3.{SoundMemory};
ghost use Rattle.text.specs.Written.{Written};
ghost use Rattle.text.specs.Page.{Puts};
ghost use Rattle.printed.specs.Traced.{trace_limit, RoomToTrace, Traced};

use crate::forward::step_forward;
use crate::lines::{put_last, put_line, put_refused};
use rules::offsets::STATE_SIZE;
use runner::{position_after, verdict_of};
use text::Page;

// The budget of the printing program.
const TRACE_BUDGET: u16 = 60000;

// The bytes of the longest text: 29 for a line, 18 for the last one.
pub const TRACE_LIMIT: usize = 1740018;

// How many steps were made, and the position after the last.
#[derive(Clone, Copy)]
struct Lines {
    made: u16,
    next: u32,
}

// The lines of the steps of a run.
fn put_steps(m: &mut [u8], page: &mut Page) -> Lines
    requires { SoundMemory m.old × RoomToTrace page.old }
    ensures { Traced (view m.old) (steps trace_budget (view m.old) 0) page.old result.made result.next m.new page.new }
{
    let mut next = 0;
    for made in 0..TRACE_BUDGET {
        let Some(x) = step_forward(m, next) else {
            return Lines { made, next };
        };
        put_line(page, made as u32 + 1, x);
        next = position_after(x.position);
    }
    Lines {
        made: TRACE_BUDGET,
        next,
    }
}

// The lines of a run, and the last one.
fn put_run(m: &mut [u8], page: &mut Page)
    requires { SoundMemory m.old × RoomToTrace page.old }
    ensures is { Puts page.old (run_text (view m.old) (steps trace_budget (view m.old) 0)) page.new }
    ensures within { page.new.at ≤ page.old.at + trace_limit }
{
    let lines = put_steps(m, page);
    let verdict = verdict_of(m);
    put_last(page, verdict, lines.made, lines.next);
}

// The whole text for an image.
fn put_trace(image: &[u8], page: &mut Page)
    requires { RoomToTrace page.old }
    ensures is { Puts page.old (trace_text image.now) page.new }
    ensures within { page.new.at ≤ page.old.at + trace_limit }
{
    let mut state = [0; STATE_SIZE];
    match machine::load(&mut state, image) {
        Err(refusal) => put_refused(page, refusal.number()),
        Ok(()) => put_run(&mut state, page),
    }
}

// The whole text for an image, and where it ends.
pub fn trace(image: &[u8], out: &mut [u8]) -> usize
    requires { trace_limit ≤ length out.old }
    ensures is { Written out.old 0 (trace_text image.now) out.new result }
    ensures within { result ≤ trace_limit }
{
    let mut page = Page::new(out, 0);
    put_trace(image, &mut page);
    page.at
}
