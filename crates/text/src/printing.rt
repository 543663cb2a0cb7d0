// Printing into a lent buffer: a page is the buffer and the place from which on the next text goes. Each method leaves the page behind what
// it printed, and all else in the buffer as it was.
ghost use Rattle.std.specs.Prelude.{◌≡◌, [], ◌∷◌, ◌+◌, ◌*◌, ◌%◌, ◌≤◌, ◌<◌, length, drop};
ghost use Rattle.rules.specs.Text.{decimal, signed_decimal};
ghost use Rattle.words.specs.Parts.{put_at};
ghost use Rattle.text.specs.Written.{Written, hex_digit, hex_byte, hex_text};
ghost use Rattle.text.specs.Page.{Room, Puts};

// Digits of the greatest u64.
const MOST_DIGITS: usize = 20;

// The last decimal digit of a number.
fn last_digit(n: u64) -> u8
    ensures { result ≡ 48 + n % 10 }
{
    (48 + n % 10) as u8
}

// The digits of n go to the end of a buffer for the most that there can be: where they begin.
fn spell(digits: &mut [u8], n: u64) -> usize
    requires { length digits.old ≡ 20 }
    ensures within { result ≤ 20 }
    ensures spelled { drop result digits.new ≡ decimal n }
{
    let mut from = MOST_DIGITS - 1;
    digits[from] = last_digit(n);
    let mut rest = n / 10;
    // a `while`: how many digits there are shows only as they come
    while 0 < rest {
        from -= 1;
        digits[from] = last_digit(rest);
        rest /= 10;
    }
    from
}

// A hex digit.
fn hex_digit(d: u8) -> u8
    requires { d < 16 }
    ensures { result ≡ hex_digit d }
{
    if d < 10 {
        return 48 + d;
    }
    87 + d
}

// A byte in two hex digits.
fn put_byte(out: &mut [u8], at: usize, b: u8)
    requires { at + 2 ≤ length out.old }
    ensures { out.new ≡ put_at out.old at (hex_byte b) }
{
    out[at] = hex_digit(b / 16);
    out[at + 1] = hex_digit(b % 16);
}

// Bytes in hex fill a slice of twice their length. It takes no page, whose place would be read and set for each byte: the text of a dump
// took more than three times the instructions. Nor is it inlined: as a function of its own its loop is compiled to put many bytes at a
// time; inlined into all that answers a line, a peek took more than six times the instructions.
#[inline(never)]
fn hex_into(out: &mut [u8], bytes: &[u8])
    requires { length out.old ≡ 2 * length bytes.now }
    ensures { out.new ≡ hex_text bytes.now }
{
    for (i, b) in bytes.iter().enumerate() {
        put_byte(out, 2 * i, *b);
    }
}

// A lent buffer, and the place in it from which on the next text goes.
#[derive(Drop)]
pub struct Page<'a> {
    out: &'a mut [u8],
    pub at: usize,
}

impl<'a> Page<'a> {
    // The buffer, to be printed into from a place on.
    pub fn new(out: &'a mut [u8], at: usize) -> Page<'a>
        ensures same_buffer { result.out.ghost_name ≡ out.entry.ghost_name }
        ensures holds { result.out.now ≡ out.old }
        ensures begins { result.at ≡ at }
    {
        Page { out, at }
    }

    // The bytes as they are.
    pub fn put_bytes(&mut self, bytes: &[u8])
        requires { Room self.old bytes.now }
        ensures { Puts self.old bytes.now self.new }
    {
        words::copy(bytes, self.out, self.at);
        self.at += bytes.len();
    }

    // One letter.
    pub fn put_letter(&mut self, letter: u8)
        requires { Room self.old (letter ∷ []) }
        ensures { Puts self.old (letter ∷ []) self.new }
    {
        self.out[self.at] = letter;
        self.at += 1;
    }

    // A number in decimal.
    pub fn put_decimal(&mut self, n: u64)
        requires { Room self.old (decimal n) }
        ensures { Puts self.old (decimal n) self.new }
    {
        let mut digits = [0u8; MOST_DIGITS];
        let from = spell(&mut digits, n);
        self.put_bytes(&digits[from..]);
    }

    // A letter and a number.
    pub fn put_lettered(&mut self, letter: u8, n: u64)
        requires { Room self.old (letter ∷ decimal n) }
        ensures { Puts self.old (letter ∷ decimal n) self.new }
    {
        self.put_letter(letter);
        self.put_decimal(n);
    }

    // A signed number in decimal.
    pub fn put_signed(&mut self, n: i32)
        requires { Room self.old (signed_decimal n) }
        ensures { Puts self.old (signed_decimal n) self.new }
    {
        let magnitude = u64::from(n.unsigned_abs());
        if n < 0 {
            return self.put_lettered(b'-', magnitude);
        }
        self.put_decimal(magnitude);
    }

    // Bytes in hex, in lower case.
    pub fn put_hex(&mut self, bytes: &[u8])
        requires { Room self.old (hex_text bytes.now) }
        ensures { Puts self.old (hex_text bytes.now) self.new }
    {
        let end = self.at + 2 * bytes.len();
        hex_into(&mut self.out[self.at..end], bytes);
        self.at = end;
    }
}
