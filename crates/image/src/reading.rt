// The parts of the reader: the checks of all blocks, the zeros behind the code, and the data of right blocks.
ghost use Rattle.std.specs.Prelude.{◌≡◌, ◌*◌, ◌≤◌, ◌<◌, length, drop};
ghost use Rattle.words.specs.Parts.{high_at};
ghost use Rattle.rules.specs.Refusal.{done, unless};
ghost use Rattle.rules.specs.Image.{block_size, code_in, read_causes, any_check_wrong, any_nonzero};
ghost use Rattle.rules.specs.Numbers.{answer_of};
ghost use Rattle.image.specs.Answers.{length_read};

use crate::block::{BLOCK_SIZE, HEAD_SIZE};
use rules::{CODE_LIMIT, Refusal};

// Some of the first `count` blocks has another check than its data's.
pub fn any_check_wrong(image: &[u8], count: usize) -> bool
    requires { block_size * count ≤ length image.now }
    ensures { result ≡ any_check_wrong count image.now }
{
    for i in 0..count {
        let at = BLOCK_SIZE * i;
        if !crate::block::right(&image[at..at + BLOCK_SIZE]) {
            return true;
        }
    }
    false
}

// Some byte is not zero.
fn any_nonzero(bytes: &[u8]) -> bool
    ensures { result ≡ any_nonzero bytes.now }
{
    bytes.iter().any(|b| *b != 0)
}

// The code length that an image states.
pub fn code_length(image: &[u8]) -> usize
    requires { block_size ≤ length image.now }
    ensures { result ≡ high_at image.now 2 }
{
    usize::from(words::get16_high(image, 2))
}

// 22 and 23 of an image of `count` whole blocks.
pub fn read_data(image: &[u8], count: usize) -> Result<usize, Refusal>
    requires whole_blocks { block_size * count ≡ length image.now }
    requires count_nonzero { 0 < count }
    ensures { answer_of result
        ≡ length_read (unless (drop 4 (read_causes image.now)) (done (code_in image.now))) }
{
    if image[0] != 1 {
        return Err(Refusal::ImageHead);
    }
    if image[1] != 0 {
        return Err(Refusal::ImageHead);
    }
    let length = code_length(image);
    if length == 0 {
        return Err(Refusal::ImageHead);
    }
    if CODE_LIMIT < length {
        return Err(Refusal::ImageHead);
    }
    if crate::block::block_count(length) != count {
        return Err(Refusal::ImageHead);
    }
    // the code ends in the last block, behind the checks of those before
    let end = HEAD_SIZE + length + 2 * (count - 1);
    if any_nonzero(&image[end..image.len() - 2]) {
        return Err(Refusal::NonzeroAfterCode);
    }
    Ok(length)
}
