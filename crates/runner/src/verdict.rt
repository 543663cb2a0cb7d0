// The verdict: spent if something can step, otherwise finished if no record and no end is in use, else stuck. Whether something can step is
// tried on a copy of the memory, so that no second set of tests stands beside the steps themselves.
ghost use Rattle.std.specs.Prelude.{◌≡◌, true, length};
ghost use Rattle.rules.specs.State.{is_free_end, is_free_record};
ghost use Rattle.rules.specs.SoundTest.{all};
ghost use Rattle.rules.specs.Run.{next_step, nothing_in_use, verdict_of};
ghost use Rattle.rules.specs.Layout.{state_size, view};
ghost use Rattle.keeping.specs.Demand3.{SoundMemory};
ghost use Rattle.runner.specs.Runs.{verdict_code, stepped_by};

use crate::searching::step_from;
use registers::Status;
use rules::offsets::STATE_SIZE;
use rules::{RECORD_COUNT, Record};

#[derive(Clone, Copy)]
pub enum Verdict {
    Spent,
    Finished,
    Stuck,
}

// No record is in use.
fn records_are_free(m: &[u8]) -> bool
    requires { (length m.now ≡ state_size) × SoundMemory m.now }
    ensures { result ≡ all is_free_record (view m.now).records }
{
    (0..RECORD_COUNT as u8).all(|r| registers::status_of(m, Record(r)) == Status::Free)
}

// No end is in use: every bit of the word of free ends is set.
fn ends_are_free(m: &[u8]) -> bool
    requires { (length m.now ≡ state_size) × SoundMemory m.now }
    ensures { result ≡ all is_free_end (view m.now).ends }
{
    ends::free_word(m) == u64::MAX
}

// No record and no end is in use.
fn nothing_in_use(m: &[u8]) -> bool
    requires { (length m.now ≡ state_size) × SoundMemory m.now }
    ensures { result ≡ nothing_in_use (view m.now) }
{
    records_are_free(m) && ends_are_free(m)
}

// Where a step from position 0 would be made, if one would.
fn would_step(m: &[u8]) -> Option<u32>
    requires { (length m.now ≡ state_size) × SoundMemory m.now }
    ensures { result ≡ stepped_by (next_step (view m.now) 0) }
{
    let mut trial = [0; STATE_SIZE];
    words::copy(m, &mut trial, 0);
    step_from(&mut trial, 0)
}

pub fn verdict_of(m: &[u8]) -> Verdict
    requires { (length m.now ≡ state_size) × SoundMemory m.now }
    ensures { result ≡ verdict_code (verdict_of (view m.now)) }
{
    if would_step(m).is_some() {
        return Verdict::Spent;
    }
    if nothing_in_use(m) {
        return Verdict::Finished;
    }
    Verdict::Stuck
}
