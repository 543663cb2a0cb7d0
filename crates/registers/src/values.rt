// The cells of a stack or an environment, values first and zeros behind them: shifted by one, read from a slice of bytes and written into
// it. The cells of a queue and the bytes of slots are read and written alike, each in a line or two of its own: a function for all three
// would be told the width, the place and the number of each, and be longer than they are.
ghost use Rattle.std.specs.Prelude.{◌≡◌, List, ◌∷◌, ◌+◌, ◌*◌, ◌≤◌, pos, length, drop};
ghost use Rattle.rules.specs.Limits.{stack_depth};
ghost use Rattle.rules.specs.Bytes.{pad, flat};
ghost use Rattle.rules.specs.State.{Value};
ghost use Rattle.rules.specs.Layout.{value_size, value_bytes};
ghost use Rattle.words.specs.Parts.{put_at};
ghost use Rattle.registers.specs.Registers.{values_at};

use rules::STACK_DEPTH;
use rules::offsets::VALUE_SIZE;
use std::array;

// v in front of the values.
pub fn in_front(v: i32, values: [i32; STACK_DEPTH]) -> [i32; STACK_DEPTH]
    ensures { (l : List Value) → values ≡ pad stack_depth (pos 0) l → result ≡ pad stack_depth (pos 0) (v ∷ l) }
{
    let mut anew = values;
    anew.copy_within(..STACK_DEPTH - 1, 1);
    anew[0] = v;
    anew
}

// The values behind the first.
pub fn behind_first(values: [i32; STACK_DEPTH]) -> [i32; STACK_DEPTH]
    ensures { (l : List Value) → length l ≤ stack_depth → values ≡ pad stack_depth (pos 0) l
        → result ≡ pad stack_depth (pos 0) (drop 1 l) }
{
    let mut anew = values;
    anew.copy_within(1.., 0);
    anew[STACK_DEPTH - 1] = 0;
    anew
}

// The values that stand in m from `at` on.
pub fn read(m: &[u8], at: usize) -> [i32; STACK_DEPTH]
    requires { at + value_size * stack_depth ≤ length m.now }
    ensures { result ≡ values_at m.now at }
{
    array::from_fn(|k| words::get_signed(m, at + VALUE_SIZE * k))
}

// The values go into m from `at` on.
pub fn write(m: &mut [u8], at: usize, values: [i32; STACK_DEPTH])
    requires { at + value_size * stack_depth ≤ length m.old }
    ensures { m.new ≡ put_at m.old at (flat value_bytes values) }
{
    for k in 0..STACK_DEPTH {
        words::put_signed(m, at + VALUE_SIZE * k, values[k]);
    }
}
