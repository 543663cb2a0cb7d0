// Sums and products of two values in 64 bits, where neither can pass the width.
ghost use Rattle.std.specs.Prelude.{◌≡◌, ◌+ℤ◌, ◌*ℤ◌};
ghost use Rattle.std.specs.Int.Signed.{le_z};
ghost use Rattle.rules.specs.RecordStep.{yes_or_no};

pub fn sum(x: i32, y: i32) -> i64
    ensures { result ≡ x +ℤ y }
{
    i64::from(x) + i64::from(y)
}

pub fn product(x: i32, y: i32) -> i64
    ensures { result ≡ x *ℤ y }
{
    i64::from(x) * i64::from(y)
}

// 1 if x is at most y, else 0.
pub fn at_most(x: i32, y: i32) -> i64
    ensures { result ≡ yes_or_no (le_z x y) }
{
    i64::from(x <= y)
}
