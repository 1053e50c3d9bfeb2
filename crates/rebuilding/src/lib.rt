#![tactic(auto)]

// A catalogue rebuilt from its bytes: the file is judged whole before the first word is stored. Document 02, R-1.
mod words;

ghost use Rattle.std.specs.Prelude.{◌≡◌};
ghost use Rattle.rebuilding.specs.Rebuilding.{CatalogueRead};
ghost use Rattle.rebuilding.specs.Shown.{rebuilt_of, rebuilt_as};

use judging::{Fault, Walk, judge};
use laptop::RUN_WORDS;
use messages::Refusal;
use words::{objects_in, put_modes};

// Where the file ends, and how many identity objects, SVIDs and modes there are.
// A Walk but for the modes of its last SVID, which say nothing of a whole file.
#[derive(Clone, Copy)]
pub struct Rebuilt {
    pub at: usize,
    pub extent: usize,
    pub count: usize,
    pub modes: usize,
}

// By the walk behind the end.
impl From<Walk> for Rebuilt {
    ghost from_gives = { λ walk rebuilt. rebuilt ≡ rebuilt_of walk };

    fn from(walk: Walk) -> Rebuilt {
        Rebuilt {
            at: walk.at,
            extent: walk.extent,
            count: walk.count,
            modes: walk.modes,
        }
    }
}

// Reads a catalogue's bytes: refused 11 for a short run, then 15 to 18 for the first fault of the file.
// Each array goes by itself, as C lends them.
pub fn read_catalogue(
    bytes: &[u8],
    svids: &mut [u16; 72],
    modes: &mut [u8; 72],
    identity: &mut [u32; 6],
    run: &mut [u32],
) -> Result<Rebuilt, Fault>
    ensures { CatalogueRead bytes.now
        (record { identity = identity.old; svids = svids.old; numbers = modes.old; run = run.old })
        (rebuilt_as result)
        (record { identity = identity.new; svids = svids.new; numbers = modes.new; run = run.new }) }
{
    if run.len() < RUN_WORDS {
        let refusal = Refusal::TooShort;
        return Err(Fault { refusal, at: 0 });
    }
    let mut list = [0; 72];
    let mut numbers = [0; 72];
    let walk = judge(bytes, &mut list, &mut numbers)?;
    *identity = objects_in(bytes, walk.extent);
    put_modes(bytes, walk, &numbers, run);
    *svids = list;
    *modes = numbers;
    Ok(Rebuilt::from(walk))
}
