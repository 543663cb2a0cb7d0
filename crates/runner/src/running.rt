// A run: steps in their order, counted.
ghost use Rattle.std.specs.Prelude.{◌≡◌, ◌<◌, length};
ghost use Rattle.rules.specs.Limits.{position_count};
ghost use Rattle.rules.specs.Run.{steps};
ghost use Rattle.rules.specs.Layout.{state_size, view};
ghost use Rattle.rules.specs.Calls.{run_answer, call_run};
ghost use Rattle.rules.specs.Numbers.{answer_of};
ghost use Rattle.rules.specs.Promise.{Promise};
ghost use Rattle.keeping.specs.Demand3.{SoundMemory};
ghost use Rattle.runner.specs.Runs.{Ended, ran_reply};

use crate::searching::{position_after, step_from};
use crate::verdict::{Verdict, verdict_of};
use rules::{POSITION_COUNT, Refusal};

// Steps made, the next position and the verdict.
#[derive(Clone, Copy)]
pub struct Ran {
    pub steps: u16,
    pub next: u8,
    pub verdict: Verdict,
}

// How many steps were made, and the position after the last.
#[derive(Clone, Copy)]
struct Count {
    made: u16,
    next: u32,
}

// The steps of a run.
fn make_steps(m: &mut [u8], budget: u16, start: u32) -> Count
    requires m_len { (length m.old ≡ state_size) × (start < position_count) }
    requires sound_memory { SoundMemory m.old }
    ensures { Ended (view m.old) start (steps budget (view m.old) start) result.made result.next
        m.new }
{
    let mut next = start;
    for made in 0..budget {
        let Some(p) = step_from(m, next) else {
            return Count { made, next };
        };
        next = position_after(p);
    }
    Count { made: budget, next }
}

// 24, 1, 25, or the run.
pub fn run(state: &mut [u8], budget: u16, start: u32) -> Result<Ran, Refusal>
    ensures { Promise (ran_reply (run_answer state.old budget start)) (call_run state.old budget start).memory (answer_of result)
        state.new }
{
    machine::tested(state)?;
    if POSITION_COUNT as u32 <= start {
        return Err(Refusal::StartPosition);
    }
    let count = make_steps(state, budget, start);
    Ok(Ran {
        steps: count.made,
        next: count.next as u8,
        verdict: verdict_of(state),
    })
}
