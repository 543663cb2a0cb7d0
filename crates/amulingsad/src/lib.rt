// The machine for hosts: the functions of include/amulingsad.h. Each returns document 01's number and writes further answers through
// pointers, which a refused call leaves as they were. What is promised here is what `machine`, `runner` and `image` promise.

#![tactic(auto)]

ghost use Rattle.std.specs.Prelude.{◌≡◌};
ghost use Rattle.rules.specs.Refusal.{number_of};
ghost use Rattle.rules.specs.Calls.{load, write, call_record, call_end, call_free_ends, run_answer, call_run};
ghost use Rattle.amulingsad.specs.Answers.{count_or, lowest_or, steps_or, next_or, verdict_or, verdict_number};

use rules::number_of;
use runner::Verdict;

// The number of a verdict in the header: the cast, with the promise that the C functions cite.
fn number_of_verdict(verdict: Verdict) -> u8
    ensures { result ≡ verdict_number verdict }
{
    verdict as u8
}

#[unsafe(no_mangle)]
pub extern "C" fn amul_load(state: &mut [u8], image: &[u8]) -> u8
    ensures number { result ≡ (load state.old image.now).number }
    ensures memory { state.new ≡ (load state.old image.now).memory }
{
    number_of(machine::load(state, image))
}

#[unsafe(no_mangle)]
pub extern "C" fn amul_write(code: &[u8], out: &mut [u8]) -> u8
    ensures number { result ≡ (write code.now out.old).number }
    ensures memory { out.new ≡ (write code.now out.old).memory }
{
    number_of(image::write(code, out))
}

#[unsafe(no_mangle)]
pub extern "C" fn amul_ask_record(state: &mut [u8], record: u32) -> u8
    ensures number { result ≡ (call_record state.old «record»).number }
    ensures memory { state.new ≡ (call_record state.old «record»).memory }
{
    number_of(machine::ask_record(state, record))
}

#[unsafe(no_mangle)]
pub extern "C" fn amul_ask_end(state: &mut [u8], end: u32) -> u8
    ensures number { result ≡ (call_end state.old end).number }
    ensures memory { state.new ≡ (call_end state.old end).memory }
{
    number_of(machine::ask_end(state, end))
}

#[unsafe(no_mangle)]
pub extern "C" fn amul_free_ends(state: &[u8], count: &mut u8, lowest: &mut u8) -> u8
    ensures number { result ≡ number_of (call_free_ends state.now) }
    ensures count { count.new ≡ count_or count.old (call_free_ends state.now) }
    ensures lowest { lowest.new ≡ lowest_or lowest.old (call_free_ends state.now) }
{
    match machine::free_ends(state) {
        Err(refusal) => refusal.number(),
        Ok(free) => {
            *count = free.count;
            *lowest = free.lowest;
            0
        }
    }
}

#[unsafe(no_mangle)]
pub extern "C" fn amul_run(
    state: &mut [u8],
    budget: u16,
    start: u32,
    steps: &mut u16,
    next: &mut u8,
    verdict: &mut u8,
) -> u8
    ensures number { result ≡ number_of (run_answer state.old budget start) }
    ensures memory { state.new ≡ (call_run state.old budget start).memory }
    ensures steps { steps.new ≡ steps_or steps.old (run_answer state.old budget start) }
    ensures next { next.new ≡ next_or next.old (run_answer state.old budget start) }
    ensures verdict { verdict.new ≡ verdict_or verdict.old (run_answer state.old budget start) }
{
    match runner::run(state, budget, start) {
        Err(refusal) => refusal.number(),
        Ok(ran) => {
            *steps = ran.steps;
            *next = ran.next;
            *verdict = number_of_verdict(ran.verdict);
            0
        }
    }
}
