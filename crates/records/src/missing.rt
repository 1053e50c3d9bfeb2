// Why no whole record stands at a place of some bytes: a kind that there is not, a body that is cut, or the end of the
// bytes.
ghost use Rattle.std.specs.Prelude.{◌≡◌};
ghost use Rattle.records.specs.Records.{found_number};
ghost use Rattle.records.specs.Refused.{refusal_for};
ghost use Rattle.records.specs.Shown.{as_found};

use crate::Whole;
use messages::Refusal;

#[derive(Clone, Copy, PartialEq, Eq)]
pub enum Missing {
    Unknown,
    Cut,
    Nothing,
}

// Bytes that stop between two records are cut too.
impl From<Missing> for Refusal {
    ghost from_gives = { λ missing refusal. refusal ≡ refusal_for missing };

    fn from(missing: Missing) -> Refusal {
        match missing {
            Missing::Unknown => Refusal::UnknownKind,
            Missing::Cut | Missing::Nothing => Refusal::CutRecord,
        }
    }
}

// The refusal number of what was found, 0 for a whole record.
pub fn fault_of(found: Result<Whole, Missing>) -> u8
    ensures { result ≡ found_number (as_found found) }
{
    match found {
        Ok(_) => 0,
        Err(missing) => u8::from(Refusal::from(missing)),
    }
}
