// Document 01's "A step at an end", on a memory known to be sound: the two heads of a pair must match, and are removed. What is
// promised is in specs/Stepped.antt; what the heads make is read in `heads`, what the waiting record wants in `wanted`, and the
// changes of the memory are in `steps`.

#![tactic(auto)]

ghost use Rattle.std.specs.Prelude.{◌≡◌, ◌<◌};
ghost use Rattle.std.proofs.Math.Option.{some};
ghost use Rattle.rules.specs.Limits.{end_count};
ghost use Rattle.rules.specs.Numbers.{end_number};
ghost use Rattle.rules.specs.State.{end_at, head_of};
ghost use Rattle.rules.specs.EndStep.{meet_heads};
ghost use Rattle.rules.specs.Layout.{view};
ghost use Rattle.keeping.specs.Demand3.{SoundMemory};
ghost use Rattle.ends.specs.Items.{item_of};
ghost use Rattle.meetings.specs.Stepped.{Met, EndStepped};

use ends::Item;
use heads::{Meeting, meeting_of};
use rules::{END_COUNT, End, Refusal};

mod heads; // heads.rt: what the heads of two queues make
mod wanted; // wanted.rt: what a waiting record wants
mod steps; // steps.rt: a datum delivered, a split divided, two closes

// Two items at the heads of e and f: 18, 19, or the step.
fn meet(m: &mut [u8], e: End, f: End, x: Item, y: Item) -> Result<(), Refusal>
    requires sound_memory { SoundMemory m.old × (end_number e < end_count) × (end_number f < end_count) }
    requires heads { (head_of (end_at (view m.old) (end_number e)) ≡ some (item_of x))
        × (head_of (end_at (view m.old) (end_number f)) ≡ some (item_of y)) }
    ensures { Met m.old (end_number e) (end_number f)
        (meet_heads (view m.old) (end_number e) (end_number f) (some (item_of x)) (some (item_of y))) result m.new }
{
    let Some(meeting) = meeting_of(e, f, x, y) else {
        return Err(Refusal::HeadsMismatch);
    };
    match meeting {
        Meeting::Delivers {
            from,
            to,
            datum,
            record,
        } => steps::deliver(m, from, to, datum, record),
        Meeting::Divides {
            first,
            second,
            record,
        } => steps::divide(m, e, f, first, second, record),
        Meeting::Closes => steps::close(m, e, f),
    }
}

// An end is asked to step: 16, 17, 18, 19, or the step. Any number may be asked.
pub fn step_end(m: &mut [u8], end: u32) -> Result<(), Refusal>
    requires { SoundMemory m.old }
    ensures { EndStepped m.old end result m.new }
{
    if END_COUNT as u32 <= end {
        return Err(Refusal::NoEnd);
    }
    let e = End(end as u8);
    if ends::is_free(m, e) {
        return Err(Refusal::NoEnd);
    }
    let f = ends::partner(m, e);
    let Some(x) = ends::head(m, e) else {
        return Err(Refusal::QueueEmpty);
    };
    let Some(y) = ends::head(m, f) else {
        return Err(Refusal::QueueEmpty);
    };
    meet(m, e, f, x, y)
}
