#![tactic(auto)]

// A damaged catalogue file mended: what stands before its first fault, less an SVID without modes, and the end. Document 02, R-6.
mod keeping;

ghost use Rattle.std.specs.Prelude.{◌≡◌};
ghost use Rattle.judging.specs.Faults.{judged_as};
ghost use Rattle.mending.specs.Mending.{mending_of};
ghost use Rattle.mending.specs.Shown.{told_by, outcome_in, mended_in};

use judging::{Fault, Stopped, Walk, judge};
pub use keeping::Kept;
use keeping::{kept_of, put_kept};
use messages::Refusal;

// A sound file comes out the same; any other that has its identity is mended, and what comes out is a part of what it
// was. The fault is the file's first: its refusal is 15 to 18, and it stands at the offset of its record.
#[derive(Clone, Copy)]
pub enum Mended {
    Sound(Kept),
    Partial(Fault, Kept),
}

// Where a walk came to, with a fault or without one.
fn reached(judged: Result<Walk, Stopped>) -> Walk
    ensures { result ≡ (judged_as judged).walk }
{
    judged.unwrap_or_else(|stopped| stopped.walk)
}

fn outcome(judged: Result<Walk, Stopped>, kept: Kept) -> Mended
    ensures { outcome_in result ≡ told_by (judged_as judged) kept }
{
    match judged {
        Ok(_) => Mended::Sound(kept),
        Err(stopped) => Mended::Partial(Fault::from(stopped), kept),
    }
}

// Mends the file into a second buffer: refused 19 if it has no whole identity at its front, then 11 if the buffer is
// too short. A refusal writes nothing.
pub fn mend_catalogue(bytes: &[u8], out: &mut [u8]) -> Result<Mended, Refusal>
    ensures { (mended_in result, out.new) ≡ mending_of bytes.now out.old }
{
    let mut svids = [0; 72];
    let mut numbers = [0; 72];
    let judged = judge(bytes, &mut svids, &mut numbers);
    let walk = reached(judged);
    if walk.extent == 0 {
        return Err(Refusal::NoIdentity);
    }
    let kept = kept_of(walk);
    if out.len() < kept.length {
        return Err(Refusal::TooShort);
    }
    put_kept(bytes, kept.length - 1, out);
    Ok(outcome(judged, kept))
}
