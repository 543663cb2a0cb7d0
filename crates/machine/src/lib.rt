// The public functions of the machine: load a method, ask a record or an end to step, count the free ends. They ask nothing of their
// caller: a request that cannot be met gets document 01's number, in its order, and leaves all lent memory as it was.

#![tactic(auto)]

ghost use Rattle.std.specs.Prelude.{◌≡◌};
ghost use Rattle.rules.specs.Calls.{record_answer, call_record, end_answer, call_end, call_free_ends};
ghost use Rattle.rules.specs.Numbers.{answer_of, reply_to};
ghost use Rattle.rules.specs.Promise.{Promise};
ghost use Rattle.machine.specs.Answers.{sound_reply, free_answer};

use ends::word::{count, lowest};
pub use loading::load;
use rules::Refusal;
use rules::offsets::STATE_SIZE;

// How many ends are free, and the lowest of them (64 with none free).
#[derive(Clone, Copy)]
pub struct FreeEnds {
    pub count: u8,
    pub lowest: u8,
}

// 24, then 1; done where the memory is the layout of a sound state.
pub fn tested(state: &[u8]) -> Result<(), Refusal>
    ensures { answer_of result ≡ sound_reply state.now }
{
    if state.len() != STATE_SIZE {
        return Err(Refusal::StateLength);
    }
    if !soundness::is_sound(state) {
        return Err(Refusal::Unsound);
    }
    Ok(())
}

// A record is asked to step: 24, 1, 2 to 15, or done. Any number may be asked.
pub fn ask_record(state: &mut [u8], record: u32) -> Result<(), Refusal>
    ensures { Promise (reply_to (record_answer state.old «record»)) (call_record state.old «record»).memory
        (answer_of result) state.new }
{
    tested(state)?;
    asking::step_record(state, record)
}

// An end is asked to step: 24, 1, 16 to 19, or done. Any number may be asked. It reads like `ask_record`, but each promises what its own
// definition says.
pub fn ask_end(state: &mut [u8], end: u32) -> Result<(), Refusal>
    ensures { Promise (reply_to (end_answer state.old end)) (call_end state.old end).memory
        (answer_of result) state.new }
{
    tested(state)?;
    asking::step_end(state, end)
}

// How many ends are free, and the lowest: 24, 1, or both numbers.
pub fn free_ends(state: &[u8]) -> Result<FreeEnds, Refusal>
    ensures { free_answer result ≡ call_free_ends state.now }
{
    tested(state)?;
    let word = ends::free_word(state);
    let end = lowest(word);
    Ok(FreeEnds {
        count: count(word),
        lowest: end.0,
    })
}
