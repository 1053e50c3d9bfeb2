// What stays at the far end from event to event, and what the last event there led to.
use crate::link::Link;
use crate::objects::Objects;
use dock::{Accepted, Dock};
use messages::{Edition, Refusal};
use pages::MOST_SVIDS;

// The modes of each of the dock's SVIDs.
pub type Modes = [Objects; MOST_SVIDS];

// The dock with its highest edition, and the link to it. `lost` counts the confirmations lost in this gathering. The
// last two fields are of the last event: the outcome is that of the call that it made. A permitted event may make no
// call, so the outcome does not say whether the event is permitted.
#[derive(Clone, Copy)]
pub struct FarEnd {
    pub dock: Dock,
    pub(crate) highest: Edition,
    pub(crate) modes: Modes,
    pub link: Link,
    pub lost: u64,
    pub is_permitted: bool,
    pub outcome: Option<Result<(), Refusal>>,
}

impl FarEnd {
    // With a quiet link.
    pub fn new(dock: Dock, highest: Edition, modes: Modes) -> FarEnd {
        FarEnd {
            dock,
            highest,
            modes,
            link: Link::quiet(),
            lost: 0,
            is_permitted: true,
            outcome: None,
        }
    }

    // An event that is permitted, or not, and makes no call so far.
    pub fn permit(&mut self, is_permitted: bool) {
        self.is_permitted = is_permitted;
        self.outcome = None;
    }

    // One more confirmation is lost, or none.
    pub fn count_lost(&mut self, is_lost: bool) {
        self.lost = self.lost.wrapping_add(u64::from(is_lost));
    }

    // What a call of the dock gave, which stays as it was where it refuses.
    pub(crate) fn step(&mut self, stepped: Result<Accepted, Refusal>) {
        self.dock = stepped.map_or(self.dock, |accepted| accepted.dock);
        self.outcome = Some(stepped.map(|_| ()));
    }
}
