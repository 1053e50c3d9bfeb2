// The link: the request under way, and the answer to the last request that reached the dock.
ghost use Rattle.std.specs.Prelude.{◌≡◌, take};

use crate::Event;
use messages::{Edition, Head, Refusal, first};

// A request is one object, an answer at most seven.
pub const REQUEST: usize = 4;

pub const ANSWER: usize = 28;

// The request of a head.
pub(crate) fn written(edition: Edition, head: Head) -> Result<[u8; REQUEST], Refusal> {
    let mut bytes = [0; REQUEST];
    writing::write(edition, head, &[], &mut bytes)?;
    Ok(bytes)
}

#[derive(Clone, Copy, PartialEq, Eq)]
pub enum Place {
    UnderWay,
    Arrived,
    Lost,
}

// What the dock has heard of its answer.
#[derive(Clone, Copy, PartialEq, Eq)]
pub enum Heard {
    Nothing,
    Sent,
    Failed,
}

// The answer is the first `length` of the bytes, and counted once the laptop has counted it as a page.
// `first` takes any length, so nothing has to hold of this one.
#[derive(Clone, Copy)]
pub struct Answer {
    pub bytes: [u8; ANSWER],
    pub length: u8,
    place: Place,
    heard: Heard,
    is_page_before_last: bool,
    is_counted: bool,
}

impl Answer {
    // It is under way, and nothing has been heard of it.
    pub(crate) fn new(bytes: [u8; ANSWER], length: u8, is_page_before_last: bool) -> Answer {
        Answer {
            bytes,
            length,
            place: Place::UnderWay,
            heard: Heard::Nothing,
            is_page_before_last,
            is_counted: false,
        }
    }

    pub fn bytes(&self) -> &[u8]
        ensures { result.now ≡ take self.now.length self.now.bytes }
    {
        first(&self.bytes, usize::from(self.length))
    }

    pub fn arrived(self, is_counted: bool) -> Answer {
        Answer {
            place: Place::Arrived,
            is_counted,
            ..self
        }
    }

    fn is_under_way(&self) -> bool {
        self.place == Place::UnderWay
    }

    // A confirmed answer still has to arrive.
    fn must_arrive(&self) -> bool {
        self.is_under_way() && self.heard == Heard::Sent
    }

    fn can_fail(&self) -> bool {
        self.heard == Heard::Nothing
    }

    // A lost answer is not confirmed.
    fn can_be_sent(&self) -> bool {
        self.can_fail() && self.place != Place::Lost
    }

    // A page before the last that the laptop has counted, and that is not confirmed.
    fn is_unconfirmed_page(&self) -> bool {
        self.is_page_before_last && self.is_counted && self.heard != Heard::Sent
    }

    // The same of which the dock has heard that it failed.
    pub fn is_failed_page(&self) -> bool {
        self.is_unconfirmed_page() && self.heard == Heard::Failed
    }

    // And of which it has heard nothing.
    fn is_unheard_page(&self) -> bool {
        self.is_unconfirmed_page() && self.heard == Heard::Nothing
    }
}

#[derive(Clone, Copy)]
pub struct Link {
    pub request: Option<[u8; REQUEST]>,
    pub answer: Option<Answer>,
}

impl Link {
    // Nothing is under way.
    pub fn quiet() -> Link {
        Link {
            request: None,
            answer: None,
        }
    }

    // A counted page of which nothing was heard before the next request counts as failed.
    pub fn loses_confirmation(&self, event: Event) -> bool {
        match event {
            Event::RequestReaches => self.answer.is_some_and(|answer| answer.is_unheard_page()),
            Event::Failed => self
                .answer
                .is_some_and(|answer| answer.is_unconfirmed_page()),
            _ => false,
        }
    }

    pub fn permits(&self, event: Event) -> bool {
        let must_arrive = self.answer.is_some_and(|answer| answer.must_arrive());
        match event {
            Event::RequestReaches => !must_arrive && self.request.is_some(),
            Event::RequestLost => self.request.is_some(),
            Event::AnswerArrives => self.answer.is_some_and(|answer| answer.is_under_way()),
            Event::AnswerLost => !must_arrive
                && self.answer.is_some_and(|answer| answer.is_under_way()),
            Event::Sent => self.answer.is_some_and(|answer| answer.can_be_sent()),
            Event::Failed => self.answer.is_some_and(|answer| answer.can_fail()),
            _ => true,
        }
    }

    // After an event at the dock or on the way there. Of an answer before the last request nothing can arrive or be
    // heard.
    pub fn take(&mut self, event: Event) {
        match event {
            Event::RequestReaches => *self = Link::quiet(),
            Event::RequestLost => self.request = None,
            Event::AnswerLost => self.place(Place::Lost),
            Event::Sent => self.hear(Heard::Sent),
            Event::Failed => self.hear(Heard::Failed),
            _ => {}
        }
    }

    fn place(&mut self, place: Place) {
        self.answer = self.answer.map(|answer| Answer { place, ..answer });
    }

    fn hear(&mut self, heard: Heard) {
        self.answer = self.answer.map(|answer| Answer { heard, ..answer });
    }
}
