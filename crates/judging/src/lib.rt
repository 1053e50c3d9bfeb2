#![tactic(auto)]

// A catalogue's bytes judged, record by record: sound, or the first fault from the front. Document 02, R-1.
mod fault;
mod passing;
mod walk;

ghost use Rattle.std.specs.Prelude.{◌≡◌, cond, [], ltb};
ghost use Rattle.messages.specs.Refusals.{number_in};
ghost use Rattle.judging.specs.Judging.{bytes_after_end, noted, FileJudged};
ghost use Rattle.judging.specs.Noting.{front};
ghost use Rattle.judging.specs.Faults.{judged_as};

pub use fault::{Fault, Stopped};
use messages::Refusal;
use records::{Record, Whole, record_from};
pub use walk::Walk;

const FRONT: Walk = Walk {
    at: 0,
    extent: 0,
    count: 0,
    last: 0,
    modes: 0,
};

// Nothing may stand behind the end record.
fn end_check(at: usize, length: usize) -> Result<(), Refusal>
    ensures { number_in result ≡ cond (ltb at length) bytes_after_end 0 }
{
    if at < length {
        Err(Refusal::BytesAfterEnd)
    } else {
        Ok(())
    }
}

impl Walk {
    // Goes from the front behind the end, or to the first fault.
    fn go(
        &mut self,
        bytes: &[u8],
        svids: &mut [u16; 72],
        numbers: &mut [u8; 72],
    ) -> Result<(), Refusal>
        requires { (self.old ≡ front) × (svids.old ≡ noted []) × (numbers.old ≡ noted []) }
        ensures { FileJudged bytes.now (record { refusal = number_in result; walk = self.new }) svids.new numbers.new }
    {
        // Each record says how far the next one is, so no range or iterator gives the places. What was found is taken
        // apart in a pattern, and not by `?`: a `Whole` that is copied hides from the compiler which record it has.
        while self.at < bytes.len() {
            match record_from(bytes, self.at) {
                Err(missing) => return Err(Refusal::from(missing)),
                Ok(Whole { record, length }) => {
                    if !self.may_follow(svids, record) {
                        return Err(Refusal::OutOfOrder);
                    }
                    *self = self.passed(record, length, svids, numbers);
                    if matches!(record, Record::End) {
                        return end_check(self.at, bytes.len());
                    }
                }
            }
        }
        Err(Refusal::CutRecord)
    }
}

// The walk from the front, and where it stands behind the end. The SVIDs that it passes, and the number of modes of
// each, are noted in the arrays that are lent.
// Each array goes by itself, since that is how callers keep them, C at last.
pub fn judge(bytes: &[u8], svids: &mut [u16; 72], numbers: &mut [u8; 72]) -> Result<Walk, Stopped>
    ensures { FileJudged bytes.now (judged_as result) svids.new numbers.new }
{
    *svids = [0; 72];
    *numbers = [0; 72];
    let mut walk = FRONT;
    match walk.go(bytes, svids, numbers) {
        Ok(()) => Ok(walk),
        Err(refusal) => Err(Stopped { refusal, walk }),
    }
}
