// The console of a bench engineer: commands are read from standard input, one a line, and each is answered on standard output before the
// next is looked at. The grammar is that of `commands`, specs/Asked.antt; the answers are those of `answers`, specs/Answers.antt.

#![tactic(auto)]

ghost use Rattle.std.specs.Prelude.{◌≡◌, ◌≤◌, length, IfOk};
ghost use Rattle.console.specs.Sizes.{input_size};
ghost use Rattle.console.specs.declared.TheConstants.{INPUT_SIZE};

use answers::OUTPUT_SIZE;
use commands::LINE_LIMIT;
use input::zeros;
use rules::offsets::STATE_SIZE;
use std::io::{self, Read};

const LINE_END: u8 = 10;

// The longest line and one character more, `input_size` of specs/Sizes.antt: a line that fills this is too long.
const INPUT_SIZE: usize = LINE_LIMIT + 1;

// As many bytes as a line's digits can spell, `byte_size` of specs/Sizes.antt in `answers`.
const BYTE_SIZE: usize = LINE_LIMIT / 2;

// The console's memory: the state memory, the bytes of a hex word, and the answer to a line.
#[derive(Drop)]
struct Console {
    state: [u8; STATE_SIZE],
    bytes: [u8; BYTE_SIZE],
    out: [u8; OUTPUT_SIZE],
}

impl Console {
    // A line is answered, unless it is the rest of one that was.
    fn answer<R: Print>(&mut self, rt: &R, line: &[u8], skips: bool) -> io::Result<()> {
        if skips {
            return Ok(());
        }
        let n = answers::answer(line, &mut self.state, &mut self.bytes, &mut self.out);
        rt.write_all(&self.out[0..n])
    }
}

// What of the input buffer is read and not yet answered, and whether it is the rest of a line that was too long: `skips` is a bool, since
// the two places mean the same with either.
#[derive(Clone, Copy)]
struct Unanswered {
    from: usize,
    to: usize,
    skips: bool,
    ghost in_bounds: { (from ≤ to) × (to ≤ INPUT_SIZE) },
}

// One read behind the first `to` bytes: how many there are then.
fn read_more<I: Read>(reader: &mut I, input: &mut [u8; INPUT_SIZE], to: usize) -> io::Result<usize>
    requires { to ≤ INPUT_SIZE }
    ensures { IfOk result (λ n. (to ≤ n) × (n ≤ INPUT_SIZE)) }
{
    let got = reader.read(&mut input[to..])?;
    Ok(to + got)
}

// The first `size` bytes hold no whole line: more is read. What fills the buffer is a line that is too long, and what stands in front of
// the input's end is a line too: behind it nothing is left.
fn fill<R: Print, I: Read>(
    rt: &R,
    reader: &mut I,
    size: usize,
    skips: bool,
    input: &mut [u8; INPUT_SIZE],
    console: &mut Console,
) -> io::Result<Option<Unanswered>>
    requires { size ≤ INPUT_SIZE }
{
    if size == INPUT_SIZE {
        console.answer(rt, input, skips)?;
        return Ok(Some(Unanswered {
            from: 0,
            to: 0,
            skips: true,
        }));
    }
    let to = read_more(reader, input, size)?;
    if size < to {
        return Ok(Some(Unanswered { from: 0, to, skips }));
    }
    if 0 < size {
        console.answer(rt, &input[0..size], skips)?;
    }
    Ok(None)
}

// A whole line is answered, or more is read. None: the input is at its end.
fn turn<R: Print, I: Read>(
    rt: &R,
    reader: &mut I,
    r: Unanswered,
    input: &mut [u8; INPUT_SIZE],
    console: &mut Console,
) -> io::Result<Option<Unanswered>> {
    let from = r.from;
    let to = r.to;
    if let Some(n) = input[from..to].iter().position(|b| *b == LINE_END) {
        console.answer(rt, &input[from..from + n], r.skips)?;
        return Ok(Some(Unanswered {
            from: from + n + 1,
            to,
            skips: false,
        }));
    }
    if 0 < from {
        input.copy_within(from..to, 0); // a line longer than one read stands in front already
    }
    fill(rt, reader, to - from, r.skips, input, console)
}

// Turn after turn until the input ends. A proved loop has to end, and nothing says that an input does: so the turns are counted, up to a
// number that no use of the console comes to.
fn serve<R: Print, I: Read>(
    rt: &R,
    reader: &mut I,
    input: &mut [u8; INPUT_SIZE],
    console: &mut Console,
) -> io::Result<()> {
    let mut r = Unanswered {
        from: 0,
        to: 0,
        skips: false,
    };
    for _ in 0..u64::MAX {
        let Some(next) = turn(rt, reader, r, input, console)? else {
            return Ok(());
        };
        r = next;
    }
    Ok(())
}

// The input buffer: a function of its own, since its promise ties INPUT_SIZE to the grammar's longest line. The lengths of the other
// buffers are tied to the definitions by what `answers::answer` asks.
fn input_buffer() -> [u8; INPUT_SIZE]
    ensures { input_size ≡ length result }
{
    zeros()
}

fn main(rt: HostRuntime) -> io::Result<()> {
    let mut input = input_buffer();
    let mut console = Console {
        state: zeros(),
        bytes: zeros(),
        out: zeros(),
    };
    memory::start(&mut console.state);
    serve(&rt, &mut rt.stdin(), &mut input, &mut console)
}
