// Bytes not in use, which must all be zero.
ghost use Rattle.std.specs.Prelude.{◌≡◌};
ghost use Rattle.canonical.specs.Canonical.{all_zero};

// All bytes are looked at, with no way out before the last: the compiler then looks at many of them at once.
pub fn all_zero(bytes: &[u8]) -> bool
    ensures { result ≡ all_zero bytes.now }
{
    let mut any = 0;
    for b in bytes {
        any |= *b;
    }
    any == 0
}
