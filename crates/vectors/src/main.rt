// The stored images, each with all that the printing program writes for it. Their names are the arguments, the images stand in data/,
// and what has to come out is in stdout: the name of an image, then its text. The texts were made by an interpreter in another language.

#![tactic(auto)]

ghost use Rattle.std.specs.Prelude.{◌≤◌, length};
ghost use Rattle.printed.specs.Traced.{trace_limit};

use input::IMAGE_ROOM;
use printed::TRACE_LIMIT;
use std::rt::Files;
use std::{env, fs, io};

// The image in a file.
fn show<R: Files + Print>(rt: &R, name: &str, out: &mut [u8]) -> io::Result<()>
    requires { trace_limit ≤ length out.old }
{
    println!(rt; "{name}")?;
    let mut file = fs::open(rt, name)?;
    let mut image: [u8; IMAGE_ROOM] = input::zeros();
    let n = input::read_full(&mut file, &mut image)?;
    let end = printed::trace(&image[..n], out);
    rt.write_all(&out[..end])
}

fn main(rt: HostRuntime) -> io::Result<()> {
    let mut out: [u8; TRACE_LIMIT] = input::zeros();
    for name in env::args(&rt)?.skip(1) {
        show(&rt, name.as_str(), &mut out)?;
    }
    Ok(())
}
