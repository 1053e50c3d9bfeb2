// SVIDs with their modes as bytes.
ghost use Rattle.std.specs.Prelude.{◌≡◌, ◌+◌, ◌<◌, ◌≤◌, length};
ghost use Rattle.laptop.specs.Catalogue.{modes_at};
ghost use Rattle.catalogue.specs.Bytes.{entry_bytes, entries_bytes};
ghost use Rattle.catalogue.specs.Parts.{entries_of};
ghost use Rattle.catalogue.specs.Records.{Put};

use crate::numbers::{MODE_SIZE, put_number, put_words};
use crate::parts::Parts;
use laptop::{MODES_EACH, modes_number};

// A part of the number that is written, and met here alone: an enum would be turned into it at once.
const SVID_KIND: u64 = 0x10;

fn put_entry(out: &mut [u8], at: usize, svid: u16, words: &[u32]) -> usize
    requires { at + length (entry_bytes (record { svid = svid; modes = words.now })) ≤ length out.old }
    ensures { Put out.old at (entry_bytes (record { svid = svid; modes = words.now })) result out.new }
{
    let place = put_number(out, at, SVID_KIND + u64::from(svid) * 256, 3);
    put_words(out, place, words, MODE_SIZE)
}

impl<'a> Parts<'a> {
    // The modes of the SVID at place i, by their numbers and the run.
    fn modes_at(self, i: usize) -> &'a [u32]
        requires { i < length self.svids.now }
        ensures { result.now ≡ modes_at self.entry.modes.now self.entry.run.now i }
    {
        let at = i * MODES_EACH;
        let end = at + usize::from(modes_number(self.modes, i));
        let run = self.run;
        &run[at..end]
    }

    // Puts SVIDs with their modes from a place on, and gives the place behind them.
    pub(crate) fn put_entries(self, out: &mut [u8], start: usize) -> usize
        requires { start + length (entries_bytes (entries_of self)) ≤ length out.old }
        ensures { Put out.old start (entries_bytes (entries_of self.entry)) result out.new }
    {
        let mut at = start;
        for (i, svid) in self.svids.iter().enumerate() {
            at = put_entry(out, at, *svid, self.modes_at(i));
        }
        at
    }

    // The bytes that SVIDs with their modes take.
    pub(crate) fn entries_length(self) -> usize
        ensures { result ≡ length (entries_bytes (entries_of self.entry)) }
    {
        let mut length = 0;
        for i in 0..self.svids.len() {
            length += 3 + self.modes_at(i).len() * 5;
        }
        length
    }
}
