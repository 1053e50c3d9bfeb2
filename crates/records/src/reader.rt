// The record reader: the caller's bytes and an offset, which may be any. Each method takes it apart, and leaves the
// work to one over plain slices.
ghost use Rattle.std.specs.Prelude.{◌≡◌};
ghost use Rattle.records.specs.Records.{found_at};
ghost use Rattle.records.specs.Shown.{as_found};

use crate::{Missing, Whole, record_at};

#[derive(Clone, Copy)]
pub struct Reader<'a> {
    pub bytes: &'a [u8],
    pub at: usize,
}

impl<'a> Reader<'a> {
    // A reader that stands at the front.
    pub fn over(bytes: &'a [u8]) -> Reader<'a>
        ensures { (result.bytes ≡ bytes.entry) × (result.at ≡ 0) }
    {
        Reader { bytes, at: 0 }
    }

    // The same bytes, and another offset.
    pub fn moved(self, at: usize) -> Reader<'a>
        ensures { (result.bytes ≡ self.entry.bytes) × (result.at ≡ at) }
    {
        Reader { at, ..self }
    }

    // Where it stands.
    pub fn place(self) -> usize
        ensures { result ≡ self.entry.at }
    {
        self.at
    }

    // The record that stands there, or why there is none.
    pub fn next(self) -> Result<Whole, Missing>
        ensures { as_found result ≡ found_at self.entry.bytes.now self.entry.at }
    {
        record_at(self.bytes, self.at)
    }
}

// The same by a plain slice and an offset, for whoever walks.
pub fn record_from(bytes: &[u8], at: usize) -> Result<Whole, Missing>
    ensures { as_found result ≡ found_at bytes.now at }
{
    Reader::over(bytes).moved(at).next()
}
