// A walk behind one record more, and what is noted of it.
ghost use Rattle.std.specs.Prelude.{◌≡◌, true, List, ℕ, ◌+◌, ◌-◌, ◌<◌, ◌≤◌, ◌^◌, set};
ghost use Rattle.judging.specs.Noting.{walk_behind, svids_noted, numbers_noted};
ghost use Rattle.judging.specs.Walking.{may_follow};

use crate::walk::Walk;
use records::Record;

impl Walk {
    #[tactic(auto, unfolding(crate::specs::Noting::walk_behind))]
    fn identified(self, length: usize, objects: u8) -> Walk
        requires { self.at + length < 2 ^ 64 }
        ensures { result ≡ walk_behind self (Record.Identity objects) length }
    {
        Walk {
            at: self.at + length,
            extent: usize::from(objects),
            ..self
        }
    }

    #[tactic(auto, unfolding(crate::specs::Noting::walk_behind))]
    fn listed(self, length: usize, svid: u16, svids: &mut [u16; 72], numbers: &mut [u8; 72]) -> Walk
        requires { (self.at + length < 2 ^ 64) × (self.count < 72) }
        ensures { (result ≡ walk_behind self (Record.Svid svid) length)
            × (svids.new ≡ set svids.old self.count svid)
            × (numbers.new ≡ set numbers.old self.count 0) }
    {
        svids[self.count] = svid;
        numbers[self.count] = 0;
        Walk {
            at: self.at + length,
            count: self.count + 1,
            last: 0,
            ..self
        }
    }

    #[tactic(auto, unfolding(crate::specs::Noting::walk_behind))]
    fn with_mode(self, length: usize, numbers: &mut [u8; 72]) -> Walk
        requires { (self.at + length < 2 ^ 64) × (0 < self.count) × (self.count ≤ 72) × (self.last < 6) × (self.modes < 2 ^ 63) }
        ensures { (((mode : ℕ) → result ≡ walk_behind self (Record.Mode mode) length))
            × (numbers.new ≡ set numbers.old (self.count - 1) (self.last + 1)) }
    {
        let last = self.last + 1;
        numbers[self.count - 1] = last as u8;
        Walk {
            at: self.at + length,
            last,
            modes: self.modes + 1,
            ..self
        }
    }

    #[tactic(auto, unfolding(crate::specs::Noting::walk_behind))]
    fn ended(self, length: usize) -> Walk
        requires { self.at + length < 2 ^ 64 }
        ensures { result ≡ walk_behind self Record.End length }
    {
        Walk {
            at: self.at + length,
            ..self
        }
    }

    // The record may follow the walk.
    pub(crate) fn passed(
        self,
        record: Record,
        length: usize,
        svids: &mut [u16; 72],
        numbers: &mut [u8; 72],
    ) -> Walk
        requires { (self.at + length < 2 ^ 64) × (self.count ≤ 72) × (self.modes < 2 ^ 63)
            × ((list : List ℕ) × (may_follow self list «record» ≡ true)) }
        ensures { (result ≡ walk_behind self «record» length)
            × (svids.new ≡ svids_noted self «record» svids.old)
            × (numbers.new ≡ numbers_noted self «record» numbers.old) }
    {
        match record {
            Record::Identity(objects) => self.identified(length, objects),
            Record::Svid(svid) => self.listed(length, svid, svids, numbers),
            Record::Mode(_) => self.with_mode(length, numbers),
            Record::End => self.ended(length),
        }
    }
}
