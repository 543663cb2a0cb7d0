// The code reader: it holds the code and a place in it, and reads forward. Each function takes the struct apart and leaves the work to
// `decode`, a function on the slice and the number; `read` stands above them, and whoever calls it sees no reader.
ghost use Rattle.std.specs.Prelude.{◌≡◌, IsNone};
ghost use Rattle.rules.specs.Instruction.{decode as decoded_by_rules};
ghost use Rattle.code.specs.Meaning.{meaning, read_to};

use crate::{Decoded, Instruction, decode};

#[derive(Clone, Copy)]
pub struct Reader<'a> {
    pub code: &'a [u8],
    pub place: usize,
}

impl<'a> Reader<'a> {
    pub fn new(code: &'a [u8], place: usize) -> Reader<'a>
        ensures { (result.code ≡ code.entry) × (result.place ≡ place) }
    {
        Reader { code, place }
    }

    pub fn place(self) -> usize
        ensures { result ≡ self.entry.place }
    {
        self.place
    }

    // The instruction at the reader's place, behind which the reader then stands; where there is none, it stays.
    pub fn next(&mut self) -> Option<Instruction>
        ensures found { read_to self.old.code.now self.old.place self.new.place result
            ≡ decoded_by_rules self.old.code.now self.old.place }
        ensures stays { IsNone result → self.new.place ≡ self.old.place }
        ensures same_code { self.new.code ≡ self.old.code }
    {
        let decoded = decode(self.code, self.place)?;
        self.place = decoded.next;
        Some(decoded.instruction)
    }
}

// What a reader finds that is set at a place of the code: a function on a slice and a number, for callers that hold no reader.
pub fn read(code: &[u8], place: usize) -> Option<Decoded>
    ensures { meaning code.now place result ≡ decoded_by_rules code.now place }
{
    let mut reader = Reader::new(code, place);
    let instruction = reader.next()?;
    Some(Decoded {
        instruction,
        next: reader.place(),
    })
}
