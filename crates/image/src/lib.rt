// The method image of document 01: the writer, the reader, and the copy of an image's code. What an image is, when one is refused and with
// which number is defined in `rules` (specs/Image.antt); what the answers stand for in specs/Answers.antt.

#![tactic(auto)]

mod block;
mod reading;
mod writing;

ghost use Rattle.std.specs.Prelude.{◌≡◌, ◌+◌, ◌≤◌, length};
ghost use Rattle.rules.specs.Refusal.{done};
ghost use Rattle.rules.specs.Calls.{write, write_answer};
ghost use Rattle.rules.specs.Image.{read_image, code_length, code_in};
ghost use Rattle.words.specs.Parts.{put_at};
ghost use Rattle.rules.specs.Numbers.{answer_of, reply_number, reply_to};
ghost use Rattle.image.specs.Answers.{length_read};

pub use block::{BLOCK_LIMIT, BLOCK_SIZE, block_count};
use block::{DATA_SIZE, HEAD_SIZE};
use rules::{CODE_LIMIT, Refusal};

// The image of a code goes to the front of `out`: done, or 26, 27 with `out` as it was. What stands past the blocks is kept. The clause
// `reply` says which refusal it is.
pub fn write(code: &[u8], out: &mut [u8]) -> Result<(), Refusal>
    ensures number { reply_number result ≡ (write code.now out.old).number }
    ensures memory { out.new ≡ (write code.now out.old).memory }
    ensures reply { answer_of result ≡ reply_to (write_answer code.now out.old) }
{
    let length = code.len();
    let count = block_count(length);
    let size = BLOCK_SIZE * count;
    if length == 0 {
        return Err(Refusal::CodeLength); // no code
    }
    if CODE_LIMIT < length {
        return Err(Refusal::CodeLength); // too much code
    }
    if out.len() < size {
        return Err(Refusal::OutputShort);
    }
    writing::write_blocks(code, out, count);
    Ok(())
}

// How long the code of a right image is, or 20, 21, 22, 23, in that order. The code stands behind the head, with the two bytes of a check
// behind each 510 of data.
pub fn read(image: &[u8]) -> Result<usize, Refusal>
    ensures { answer_of result ≡ length_read (read_image image.now) }
{
    let count = image.len() / BLOCK_SIZE;
    if BLOCK_SIZE * count != image.len() {
        return Err(Refusal::ImageLength);
    }
    if count == 0 {
        return Err(Refusal::ImageLength);
    }
    if BLOCK_LIMIT < count {
        return Err(Refusal::ImageLength);
    }
    if reading::any_check_wrong(image, count) {
        return Err(Refusal::BlockCheck);
    }
    reading::read_data(image, count)
}

// The code of an image that reads goes into `out` from `at` on. It stands in runs, one for each block: data byte p of block i stands at
// p + 2 i, behind the checks of the blocks before. No page is written on: nothing is printed behind the code.
pub fn copy_code(image: &[u8], out: &mut [u8], at: usize)
    requires image_reads { read_image image.now ≡ done (code_in image.now) }
    requires room { at + code_length image.now ≤ length out.old }
    ensures { out.new ≡ put_at out.old at (code_in image.now) }
{
    let count = image.len() / BLOCK_SIZE;
    let end = HEAD_SIZE + reading::code_length(image);
    let mut p = HEAD_SIZE;
    for i in 0..count {
        let stop = (DATA_SIZE * (i + 1)).min(end);
        words::copy(&image[p + 2 * i..stop + 2 * i], out, at + (p - HEAD_SIZE));
        p = stop;
    }
}
