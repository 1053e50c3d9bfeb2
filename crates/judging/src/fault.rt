// The first fault of a catalogue's bytes.
ghost use Rattle.std.specs.Prelude.{◌≡◌};
ghost use Rattle.judging.specs.Faults.{fault_of};

use crate::walk::Walk;
use messages::Refusal;

// The refusal, and the walk as it stands at the fault.
#[derive(Clone, Copy)]
pub struct Stopped {
    pub refusal: Refusal,
    pub walk: Walk,
}

// The refusal, and the offset of the fault.
#[derive(Clone, Copy)]
pub struct Fault {
    pub refusal: Refusal,
    pub at: usize,
}

impl From<Stopped> for Fault {
    ghost from_gives = { λ stopped fault. fault ≡ fault_of stopped };

    fn from(stopped: Stopped) -> Fault {
        Fault {
            refusal: stopped.refusal,
            at: stopped.walk.at,
        }
    }
}
