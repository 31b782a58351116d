// A cursor onto a record: the record's bytes, and the position at which reading begins.
ghost use Rattle.std.specs.Prelude.{◌≡◌};
ghost use Rattle.formula.specs.Reader.{reading_from};

use crate::reader::{Counts, Fault, read_record};

// A part of the image, borrowed, and a position in it.
#[derive(Clone, Copy)]
pub struct Cursor<'a> {
    pub src: &'a [u8],
    pub at: usize,
}

impl<'a> Cursor<'a> {
    // A cursor onto `src` at position `at`.
    pub fn new(src: &'a [u8], at: usize) -> Cursor<'a>
        ensures { (result.src ≡ src.entry) × (result.at ≡ at) }
    {
        Cursor { src, at }
    }

    // Reads the rest of the record as one formula.
    pub fn formula(self, counts: Counts) -> Result<u8, Fault>
        ensures { result ≡ reading_from self.entry.src.now counts self.entry.at }
    {
        read_record(self.src, self.at, counts)
    }
}
