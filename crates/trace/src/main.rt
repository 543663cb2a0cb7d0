// The printing program: a method image is read from standard input, and its run is printed, as document 01's "One run in full" has it.
// What is printed is made, and proved, in `printed`.

#![tactic(auto)]

use input::IMAGE_ROOM;
use printed::TRACE_LIMIT;
use std::io;

fn main(rt: HostRuntime) -> io::Result<()> {
    let mut image: [u8; IMAGE_ROOM] = input::zeros();
    let n = input::read_full(&mut rt.stdin(), &mut image)?;
    let mut out: [u8; TRACE_LIMIT] = input::zeros();
    let end = printed::trace(&image[..n], &mut out);
    rt.write_all(&out[..end])
}
