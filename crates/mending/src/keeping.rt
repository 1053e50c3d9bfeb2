// What is kept of a file: the records before its first fault, less the last SVID where it has no modes, and the end behind them.
ghost use Rattle.std.specs.Prelude.{◌≡◌, [], ◌∷◌, ◌++◌, ◌<◌, ◌≤◌, length, take};
ghost use Rattle.std.proofs.lemmas.List.Edits.{sets};
ghost use Rattle.catalogue.specs.Bytes.{end_kind};
ghost use Rattle.mending.specs.Keeping.{svids_kept, kept_by_of};

use judging::Walk;
use records::{MODE_RECORD, OBJECT_BYTES, SVID_RECORD};

// A byte that is written, and met in one place.
const END_KIND: u8 = 0x00;

// The kinds of the identity and of the end, a byte each.
const FRAME: usize = 2;

// The numbers of SVIDs and of modes in what comes out, and of its bytes.
#[derive(Clone, Copy)]
pub struct Kept {
    pub svids: usize,
    pub modes: usize,
    pub length: usize,
}

fn svids_kept(walk: Walk) -> usize
    ensures { result ≡ svids_kept walk }
{
    if walk.is_bare() {
        walk.count - 1
    } else {
        walk.count
    }
}

pub(crate) fn kept_of(walk: Walk) -> Kept
    requires { (walk.extent ≤ 6) × (walk.count ≤ 72) × (walk.modes ≤ 432) }
    ensures { result ≡ kept_by_of walk }
{
    let svids = svids_kept(walk);
    let modes = walk.modes;
    let length = FRAME + walk.extent * OBJECT_BYTES + svids * SVID_RECORD + modes * MODE_RECORD;
    Kept {
        svids,
        modes,
        length,
    }
}

// Puts so many of the file's first bytes, and the end behind them.
// A call of its own: as a part of its caller it costs `catalogue_mend` sixteen bytes of stack.
#[inline(never)]
pub(crate) fn put_kept(bytes: &[u8], number: usize, out: &mut [u8])
    requires { (number ≤ length bytes.now) × (number < length out.old) }
    ensures { out.new ≡ sets out.old 0 (take number bytes.now ++ end_kind ∷ []) }
{
    out[..number].copy_from_slice(&bytes[..number]);
    out[number] = END_KIND;
}
