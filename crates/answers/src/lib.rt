// The console's answers: what a line is answered with, into a lent buffer, and what it does to the state memory. Both are defined in
// specs/Answers.antt, for each command of the grammar of `commands`.

#![tactic(auto)]

mod bench; // bench.rt: the state memory as it is, and what is not understood
mod lines; // lines.rt: the parts of an answer
mod requests; // requests.rt: the requests of document 01

ghost use Rattle.std.specs.Prelude.{◌≡◌, ◌≤◌, length};
ghost use Rattle.rules.specs.Layout.{state_size};
ghost use Rattle.text.specs.Written.{Written};
ghost use Rattle.text.specs.Page.{Room, Puts};
ghost use Rattle.commands.specs.Asked.{asked};
ghost use Rattle.answers.specs.Sizes.{byte_size, output_size};
ghost use Rattle.answers.specs.Answers.{answer_text, state_after};

use commands::Command;
use text::Page;

// The length of the buffer for an answer.
pub const OUTPUT_SIZE: usize = 80000;

// The answer to a line, on a page. The bytes of a hex word go through `bytes`.
fn put_answer(line: &[u8], state: &mut [u8], bytes: &mut [u8], page: &mut Page)
    requires sized { (length state.old ≡ state_size) × (length bytes.old ≡ byte_size) }
    requires room { Room page.old (answer_text line.now state.old (asked line.now)) }
    ensures says { Puts page.old (answer_text line.now state.old (asked line.now)) page.new }
    ensures leaves { state.new ≡ state_after state.old (asked line.now) }
{
    let Some(command) = commands::parse(line, bytes) else {
        return bench::unknown(line, page);
    };
    match command {
        Command::Remark => bench::remark(line, page),
        Command::Load(n) => requests::load(&bytes[..n], state, page),
        Command::Write(n) => requests::write(&bytes[..n], page),
        Command::Record(n) => requests::step_record(n, state, page),
        Command::End(n) => requests::step_end(n, state, page),
        Command::Run(budget, start) => requests::run(budget, start, state, page),
        Command::Free => requests::free(state, page),
        Command::Dump => bench::dump(state, page),
        Command::Peek(at, count) => bench::peek(at, count, state, page),
        Command::Poke(at, n) => bench::poke(at, &bytes[..n], state, page),
    }
}

// The answer to a line: how long it is. The bytes of a hex word go through `bytes`.
pub fn answer(line: &[u8], state: &mut [u8], bytes: &mut [u8], out: &mut [u8]) -> usize
    requires { (length state.old ≡ state_size) × (length bytes.old ≡ byte_size) × (length out.old ≡ output_size) }
    ensures says { Written out.old 0 (answer_text line.now state.old (asked line.now))
        out.new result }
    ensures leaves { state.new ≡ state_after state.old (asked line.now) }
    ensures within { result ≤ output_size }
{
    let mut page = Page::new(out, 0);
    put_answer(line, state, bytes, &mut page);
    page.at
}
