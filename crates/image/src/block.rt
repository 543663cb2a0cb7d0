// One block: 510 bytes of data, then their RFC 1071 check, high byte first. And how many blocks a code fills.
ghost use Rattle.std.specs.Prelude.{◌≡◌, ◌*◌, ◌≤◌, ◌<◌, length, take, eqb};
ghost use Rattle.words.specs.Parts.{high_at};
ghost use Rattle.rules.specs.Image.{block_size, data_size, word_sum, folded, check_of, block_count};

// Bytes of a block, and of its data.
pub const BLOCK_SIZE: usize = 512;

pub const DATA_SIZE: usize = 510;

// Blocks of an image, at most.
pub const BLOCK_LIMIT: usize = 16;

// Bytes of data before the code: 1, 0 and the code length.
pub const HEAD_SIZE: usize = 4;

// The words of a block's data.
const WORD_COUNT: usize = 255;

// All words are added up first: 255 of them fit in 24 bits.
fn word_sum(bytes: &[u8]) -> u32
    requires { length bytes.now ≡ data_size }
    ensures value { result ≡ word_sum bytes.now }
    ensures upper_bound { result ≤ 65535 * 255 }
{
    let mut sum = 0;
    for i in 0..WORD_COUNT {
        sum += u32::from(words::get16_high(bytes, 2 * i));
    }
    sum
}

// The carries above 16 bits are added in below.
fn fold(n: u32) -> u32
    ensures { result ≡ folded n }
{
    n % 65536 + n / 65536
}

// The check of a block's data.
pub fn check(bytes: &[u8]) -> u16
    requires { length bytes.now ≡ data_size }
    ensures { result ≡ check_of bytes.now }
{
    let sum = word_sum(bytes);
    let once = fold(sum);
    let twice = fold(once);
    (65535 - twice) as u16
}

// A block's last two bytes are the check of its data, compared exactly.
pub fn right(block: &[u8]) -> bool
    requires { length block.now ≡ block_size }
    ensures { result ≡ eqb (check_of (take data_size block.now)) (high_at block.now data_size) }
{
    check(&block[..DATA_SIZE]) == words::get16_high(block, DATA_SIZE)
}

// The fewest blocks that hold a code of this length and what stands before it. Every slice is shorter than what is asked.
pub fn block_count(length: usize) -> usize
    requires { length < 9223372036854775808 }
    ensures { result ≡ block_count length }
{
    (HEAD_SIZE + length + (DATA_SIZE - 1)) / DATA_SIZE
}
