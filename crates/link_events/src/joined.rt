// The laptop end's owner and the far end of a side's link, joined. An event that is not permitted changes nothing.
use crate::event::Event;
use driving::owning::{Owner, outcome_of, sends};
use events::Call;
use laptop::{Candidate, Laptop};
use linking::far_end::FarEnd;
use linking::link::REQUEST;
use messages::{ENTER, EXIT};
use port::{Accepted, Refused, Side};

#[derive(Drop)]
pub struct Joined<'a> {
    owner: &'a mut Owner,
    far_end: &'a mut FarEnd,
    side: Side,
}

fn timer_of(command: u8) -> Call {
    match command {
        ENTER => Call::EntryTimer,
        EXIT => Call::ExitTimer,
        _ => Call::ResponseTimer,
    }
}

fn has_candidate(laptop: Laptop) -> bool {
    laptop.candidate != Candidate::Absent
}

impl<'a> Joined<'a> {
    pub fn new(owner: &'a mut Owner, far_end: &'a mut FarEnd, side: Side) -> Self {
        Joined {
            owner,
            far_end,
            side,
        }
    }

    // An event of the side.
    pub fn take(&mut self, event: Event) {
        self.far_end.permit(true);
        match event {
            Event::Call(call) => self.make(call),
            Event::Timer => self.run_out(),
            Event::ProtocolError => self.make(Call::ProtocolError),
            Event::Linked(linked) => self.take_linked(linked),
        }
    }

    fn take_linked(&mut self, event: linking::Event) {
        let is_permitted = self.far_end.link.permits(event);
        self.far_end.permit(is_permitted);
        if is_permitted {
            match event {
                linking::Event::AnswerArrives => self.arrive(),
                _ => self.far_end.take(event),
            }
        }
    }

    // The timer is that of the awaited command; with nothing awaited there is none.
    fn run_out(&mut self) {
        match self.owner.laptop(self.side).wait {
            Some(request) => self.make(timer_of(request.command)),
            None => self.far_end.permit(false),
        }
    }

    fn make(&mut self, call: Call) {
        let mut request = [0; REQUEST];
        let stepped = self.owner.make(self.side, call, &mut request);
        if sends(stepped) {
            self.far_end.link.request = Some(request);
        }
        self.step(stepped);
    }

    // The answer arrives. The confirmations lost start anew where it opens a list.
    fn arrive(&mut self) {
        let Some(answer) = self.far_end.link.answer else {
            return;
        };
        let before = self.owner.laptop(self.side);
        let stepped = self.owner.hear(self.side, answer.bytes());
        let after = self.owner.laptop(self.side);
        let answer = answer.arrived(before.pages < after.pages);
        self.far_end.link.answer = Some(answer);
        if !has_candidate(before) && has_candidate(after) {
            self.far_end.lost = 0;
        }
        self.far_end.count_lost(answer.is_failed_page());
        self.step(stepped);
    }

    // What a call of the laptop led to. A request not yet at the dock when its wait ends is lost.
    fn step(&mut self, stepped: Result<Accepted, Refused>) {
        self.far_end.outcome = Some(outcome_of(stepped));
        if self.owner.laptop(self.side).wait.is_none() {
            self.far_end.link.request = None;
        }
    }
}
