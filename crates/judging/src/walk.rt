// Where a walk over the records stands, what it has passed, and which record may follow.
ghost use Rattle.std.specs.Prelude.{◌≡◌, ℕ, List, take};
ghost use Rattle.judging.specs.Walking.{is_bare, may_follow};

use laptop::MODES_EACH;
use messages::first;
use pages::{MOST_SVIDS, is_in};
use records::Record;

// The offset, the number of identity objects (0 before the identity), of SVIDs, of the modes of the last of them, and of all modes.
// No ghost bounds: those are fields of the record too, and theorems make walks of any catalogue.
#[derive(Clone, Copy)]
pub struct Walk {
    pub at: usize,
    pub extent: usize,
    pub count: usize,
    pub last: usize,
    pub modes: usize,
}

impl Walk {
    // The last SVID has no modes yet.
    #[tactic(auto, unfolding(crate::specs::Walking::is_bare))]
    pub fn is_bare(self) -> bool
        ensures { result ≡ is_bare self }
    {
        self.count != 0 && self.last == 0
    }

    // An SVID may follow the identity or a mode; none is 0, all are different, and there are at most 72.
    #[tactic(auto, unfolding(crate::specs::Walking::may_follow))]
    fn may_list(self, svid: u16, svids: &[u16; 72]) -> bool
        ensures { result ≡ may_follow self (take self.count svids.now) (Record.Svid svid) }
    {
        self.extent != 0
            && !self.is_bare()
            && svid != 0
            && self.count < MOST_SVIDS
            && !is_in(svid, first(svids, self.count))
    }

    // A mode stands under an SVID, and six at most.
    #[tactic(auto, unfolding(crate::specs::Walking::may_follow))]
    fn may_add(self) -> bool
        ensures { (mode : ℕ) (svids : List ℕ) → result ≡ may_follow self svids (Record.Mode mode) }
    {
        self.count != 0 && self.last < MODES_EACH
    }

    #[tactic(auto, unfolding(crate::specs::Walking::may_follow))]
    fn may_end(self) -> bool
        ensures { (svids : List ℕ) → result ≡ may_follow self svids Record.End }
    {
        self.extent != 0 && !self.is_bare()
    }

    pub(crate) fn may_follow(self, svids: &[u16; 72], record: Record) -> bool
        ensures { result ≡ may_follow self (take self.count svids.now) «record» }
    {
        match record {
            Record::Identity(_) => self.extent == 0,
            Record::Svid(svid) => self.may_list(svid, svids),
            Record::Mode(_) => self.may_add(),
            Record::End => self.may_end(),
        }
    }
}
