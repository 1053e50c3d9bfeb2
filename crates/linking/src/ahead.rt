// A dock that has answered before the laptop begins.
use crate::Event;
use crate::far_end::FarEnd;
use crate::link::{Link, written};
use messages::{IDENTITY, OURS, PD_SID, REQ, Request, SVIDS, head_for};

impl FarEnd {
    // A request at our edition that is given and confirmed, without a laptop.
    fn exchange(&mut self, command: u8) {
        let request = Request {
            svid: PD_SID,
            command,
            position: 0,
        };
        self.link = Link {
            request: written(OURS, head_for(request, REQ)).ok(),
            ..Link::quiet()
        };
        self.take(Event::RequestReaches);
        self.take(Event::Give);
        self.take(Event::Sent);
    }

    // The dock answers Identity and so many times SVIDs, all of it "sent".
    pub(crate) fn advance(&mut self, pages: u8) {
        self.exchange(IDENTITY);
        for _ in 0..pages {
            self.exchange(SVIDS);
        }
    }
}
