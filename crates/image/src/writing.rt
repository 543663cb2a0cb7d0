// The parts of the writer: the data byte by byte, a block of it with its check, and all blocks.
ghost use Rattle.std.specs.Prelude.{◌≡◌, ◌++◌, ◌+◌, ◌*◌, ◌≤◌, length, get_or, drop};
ghost use Rattle.rules.specs.Limits.{code_limit};
ghost use Rattle.rules.specs.Bytes.{pad};
ghost use Rattle.rules.specs.Image.{block_size, data_size, block_limit, headed, block, blocks};

use crate::block::{BLOCK_SIZE, DATA_SIZE, HEAD_SIZE};

// Byte `at` of the data: 1, 0, the code length, the code, zeros.
fn data_byte(code: &[u8], at: usize) -> u8
    requires { length code.now ≤ code_limit }
    ensures { result ≡ get_or (headed code.now) at 0 }
{
    if at == 0 {
        return 1;
    }
    if at == 1 {
        return 0;
    }
    if at == 2 {
        return (code.len() / 256) as u8;
    }
    if at == 3 {
        return (code.len() % 256) as u8;
    }
    let i = at - HEAD_SIZE;
    if i < code.len() {
        return code[i];
    }
    0
}

// The data from `from` on, as much as `bytes` holds.
fn fill(code: &[u8], from: usize, bytes: &mut [u8])
    requires code_len_bound { length code.now ≤ code_limit }
    requires from_bound { from ≤ data_size * block_limit }
    ensures { bytes.new ≡ pad (length bytes.old) 0 (drop from (headed code.now)) }
{
    for (i, byte) in bytes.iter_mut().enumerate() {
        *byte = data_byte(code, from + i);
    }
}

// The block whose data starts at `from`.
fn write_block(code: &[u8], from: usize, out: &mut [u8])
    requires code_len_bound { length code.now ≤ code_limit }
    requires from_bound { from ≤ data_size * block_limit }
    requires out_len { length out.old ≡ block_size }
    ensures { out.new ≡ block (pad data_size 0 (drop from (headed code.now))) }
{
    fill(code, from, &mut out[..DATA_SIZE]);
    let check = crate::block::check(&out[..DATA_SIZE]);
    words::put16_high(out, DATA_SIZE, check);
}

// The first `count` blocks; what stands behind them is kept.
pub fn write_blocks(code: &[u8], out: &mut [u8], count: usize)
    requires code_len_bound { length code.now ≤ code_limit }
    requires count_le_block_limit { count ≤ block_limit }
    requires room { block_size * count ≤ length out.old }
    ensures { out.new
        ≡ blocks count (pad (data_size * count) 0 (headed code.now)) ++ drop (block_size * count) out.old }
{
    for i in 0..count {
        let at = BLOCK_SIZE * i;
        write_block(code, DATA_SIZE * i, &mut out[at..at + BLOCK_SIZE]);
    }
}
