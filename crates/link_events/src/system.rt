// The laptop end, its two links and their docks, driven by events.
use crate::begin::gather_old;
use crate::event::Event;
use crate::joined::Joined;
use driving::owning::Owner;
use linking::far_end::FarEnd;
use linking::start::Start;
use port::{Port, Side};

// Each side has a far end.
#[derive(Clone, Copy)]
pub struct Ends {
    pub owner: Owner,
    partner: FarEnd,
    cable: FarEnd,
}

// A timer or the protocol error concerns the side that waits, or the partner where none does.
fn side_of(said: Side, event: Event, port: Port) -> Side {
    match event {
        Event::Timer | Event::ProtocolError => port.wait.map_or(Side::Partner, |(side, _)| side),
        _ => said,
    }
}

impl Ends {
    pub fn new(partner: Start, cable: Start) -> Ends {
        let mut owner = Owner::new(0);
        if partner.holds_old {
            gather_old(&mut owner, Side::Partner);
        }
        if cable.holds_old {
            gather_old(&mut owner, Side::Cable);
        }
        Ends {
            owner,
            partner: partner.far_end,
            cable: cable.far_end,
        }
    }

    pub fn far_end(&self, side: Side) -> &FarEnd {
        match side {
            Side::Partner => &self.partner,
            Side::Cable => &self.cable,
        }
    }

    // An event, with the side that it says; the answer is the side that it concerns.
    pub fn take(&mut self, said: Side, event: Event) -> Side {
        let side = side_of(said, event, self.owner.port);
        match side {
            Side::Partner => Joined::new(&mut self.owner, &mut self.partner, side).take(event),
            Side::Cable => Joined::new(&mut self.owner, &mut self.cable, side).take(event),
        }
        side
    }
}
