// The answers to the requests of document 01: load, write, a step of a record and at an end, a run, the free ends. What each says and does
// is defined in specs/Answers.antt; a function asks for just the room that its answer takes.
ghost use Rattle.std.specs.Prelude.{◌≡◌, ◌*◌, ◌≤◌, length};
ghost use Rattle.rules.specs.Limits.{code_limit};
ghost use Rattle.rules.specs.Image.{block_size, block_count};
ghost use Rattle.rules.specs.Calls.{load as load_of, call_record, call_end, call_run};
ghost use Rattle.rules.specs.Numbers.{reply_number};
ghost use Rattle.text.specs.Page.{Room, Puts};
ghost use Rattle.printed.specs.Meaning.{verdict_in};
ghost use Rattle.answers.specs.Answers.{load_answered, write_answered, step_text, record_answered, end_answered, made_text, run_answered};
ghost use Rattle.answers.specs.Answers.{counted_text, free_answered};

use crate::lines::{put_hex_line, put_number_line, put_refusal_line, put_verdict_line};
use image::{BLOCK_LIMIT, BLOCK_SIZE, block_count};
use machine::FreeEnds;
use rules::{Refusal, number_of};
use runner::Ran;
use text::Page;

// The bytes of the longest image.
const IMAGE_ROOM: usize = BLOCK_SIZE * BLOCK_LIMIT;

// `load HEX`: the method of an image.
pub fn load(image: &[u8], state: &mut [u8], page: &mut Page)
    requires { Room page.old (load_answered state.old image.now) }
    ensures says { Puts page.old (load_answered state.old image.now) page.new }
    ensures leaves { state.new ≡ (load_of state.old image.now).memory }
{
    let reply = machine::load(state, image);
    put_number_line(page, b"load ", number_of(reply) as u64);
}

// The bytes of the image of a code of so many bytes.
fn image_size(code: usize) -> usize
    requires { code ≤ code_limit }
    ensures { result ≡ block_size * block_count code }
{
    BLOCK_SIZE * block_count(code)
}

// `write HEX`: the image of a code.
pub fn write(code: &[u8], page: &mut Page)
    requires { Room page.old (write_answered code.now) }
    ensures { Puts page.old (write_answered code.now) page.new }
{
    let mut image = [0u8; IMAGE_ROOM];
    match image::write(code, &mut image) {
        Err(refusal) => put_refusal_line(page, b"write ", refusal),
        Ok(()) => {
            put_number_line(page, b"write ", 0);
            let size = image_size(code.len());
            put_hex_line(page, &image[..size]);
        }
    }
}

// A step that was asked for: its name and number, and the number returned.
fn put_step(page: &mut Page, name: &[u8], n: u32, reply: Result<(), Refusal>)
    requires { Room page.old (step_text name.now n (reply_number reply)) }
    ensures { Puts page.old (step_text name.now n (reply_number reply)) page.new }
{
    page.put_bytes(name);
    page.put_decimal(n as u64);
    put_number_line(page, b": ", number_of(reply) as u64);
}

// `R n`: a record is asked to step.
pub fn step_record(n: u32, state: &mut [u8], page: &mut Page)
    requires { Room page.old (record_answered state.old n) }
    ensures says { Puts page.old (record_answered state.old n) page.new }
    ensures leaves { state.new ≡ (call_record state.old n).memory }
{
    let reply = machine::ask_record(state, n);
    put_step(page, b"R ", n, reply);
}

// `E n`: an end is asked to step. It reads like `step_record`, but each promises what its own definition says.
pub fn step_end(n: u32, state: &mut [u8], page: &mut Page)
    requires { Room page.old (end_answered state.old n) }
    ensures says { Puts page.old (end_answered state.old n) page.new }
    ensures leaves { state.new ≡ (call_end state.old n).memory }
{
    let reply = machine::ask_end(state, n);
    put_step(page, b"E ", n, reply);
}

// A run that was made.
fn put_made(page: &mut Page, ran: Ran)
    requires { Room page.old (made_text ran.steps ran.next (verdict_in ran.verdict)) }
    ensures { Puts page.old (made_text ran.steps ran.next (verdict_in ran.verdict)) page.new }
{
    page.put_bytes(b"run: 0 ");
    page.put_decimal(ran.steps as u64);
    page.put_bytes(b" ");
    page.put_decimal(ran.next as u64);
    put_verdict_line(page, ran.verdict);
}

// `run BUDGET START`.
pub fn run(budget: u16, start: u32, state: &mut [u8], page: &mut Page)
    requires { Room page.old (run_answered state.old budget start) }
    ensures says { Puts page.old (run_answered state.old budget start) page.new }
    ensures leaves { state.new ≡ (call_run state.old budget start).memory }
{
    match runner::run(state, budget, start) {
        Err(refusal) => put_refusal_line(page, b"run: ", refusal),
        Ok(ran) => put_made(page, ran),
    }
}

// The free ends where they were counted.
fn put_counted(page: &mut Page, free: FreeEnds)
    requires { Room page.old (counted_text free.count free.lowest) }
    ensures { Puts page.old (counted_text free.count free.lowest) page.new }
{
    page.put_bytes(b"free: ");
    page.put_decimal(free.count as u64);
    put_number_line(page, b" ", free.lowest as u64);
}

// `free`: the free ends.
pub fn free(state: &[u8], page: &mut Page)
    requires { Room page.old (free_answered state.now) }
    ensures { Puts page.old (free_answered state.now) page.new }
{
    match machine::free_ends(state) {
        Err(refusal) => put_refusal_line(page, b"free: refused ", refusal),
        Ok(free) => put_counted(page, free),
    }
}
