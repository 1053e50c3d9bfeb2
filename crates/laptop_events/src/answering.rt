// What an event leads to.
use crate::event::{CATALOGUE_ROOM, Event, Lengths};
use driving::digest::of_bytes;
use driving::owning::{Owner, sends};
use events::Call;
use laptop::Told;
use messages::{Refusal, first};
use port::{Accepted, Refused, Side};
use streams::input::GREATEST;

// How many bytes the output buffer of the owner's calls has at the start.
const FIRST_OUTPUT: u8 = 32;

// What an output buffer holds before a call, so that a reader sees which bytes were left alone.
const UNWRITTEN: u8 = 0xEE;

// What the runs hold at the start.
const UNWRITTEN_WORD: u32 = 0xEEEEEEEE;

// What stays from event to event: the owner, and the length of the output buffer that it lends to each side's calls.
// The two lengths are two fields: two arms of a match choose one.
#[derive(Clone, Copy)]
pub struct State {
    pub owner: Owner,
    partner_output: u8,
    cable_output: u8,
}

// Of a timer or the protocol error, the side is the one that waited. Then come the request that is to be sent, high
// byte first, the digest of a lent output buffer, what policy is told, the number of bytes of a catalogue that was
// written and their digest, and the number of an SVID's entered modes.
#[derive(Clone, Copy)]
pub struct Answer {
    pub side: Side,
    pub outcome: Result<(), Refusal>,
    pub sent: Option<u32>,
    pub output: Option<u32>,
    pub told: Told,
    pub catalogue: Option<(u16, u32)>,
    pub report: Option<u32>,
}

impl Answer {
    // The answer to an event that is accepted and tells nothing.
    fn quiet(side: Side) -> Answer {
        Answer {
            side,
            outcome: Ok(()),
            sent: None,
            output: None,
            told: Told::Nothing,
            catalogue: None,
            report: None,
        }
    }

    // Nothing is sent.
    fn stepped(stepped: Result<Accepted, Refused>) -> Answer {
        match stepped {
            Ok(accepted) => Answer {
                told: accepted.told,
                ..Answer::quiet(accepted.side)
            },
            Err(refused) => Answer {
                outcome: Err(refused.refusal),
                ..Answer::quiet(refused.side)
            },
        }
    }
}

// Only these calls are lent an output buffer.
fn may_send(call: Call) -> bool {
    matches!(
        call,
        Call::Next | Call::StartOver | Call::Enter(_) | Call::Exit(_)
    )
}

// A request is one object.
fn request_in(output: &[u8]) -> Option<u32> {
    output
        .first_chunk()
        .map(|object| u32::from_be_bytes(*object))
}

impl State {
    pub fn new() -> State {
        State {
            owner: Owner::new(UNWRITTEN_WORD),
            partner_output: FIRST_OUTPUT,
            cable_output: FIRST_OUTPUT,
        }
    }

    pub fn take(&mut self, side: Side, event: Event<'_>) -> Answer {
        match event {
            Event::Message(bytes) => Answer::stepped(self.owner.hear(side, bytes)),
            Event::Call(call) => self.make(side, call),
            Event::Report(svid) => Answer {
                report: Some(self.owner.report(side, svid)),
                ..Answer::quiet(side)
            },
            Event::Catalogue(room) => self.write(side, room),
            Event::Lengths(lengths) => {
                self.lend(side, lengths);
                Answer::quiet(side)
            }
        }
    }

    // The length of the output buffer of the side's calls.
    fn output_for(&self, side: Side) -> u8 {
        match side {
            Side::Partner => self.partner_output,
            Side::Cable => self.cable_output,
        }
    }

    fn make(&mut self, side: Side, call: Call) -> Answer {
        let mut buffer = [UNWRITTEN; GREATEST];
        let output = &mut buffer[..usize::from(self.output_for(side))];
        let stepped = self.owner.make(side, call, output);
        Answer {
            sent: request_in(output).filter(|_| sends(stepped)),
            output: may_send(call).then(|| of_bytes(output)),
            ..Answer::stepped(stepped)
        }
    }

    fn write(&self, side: Side, room: usize) -> Answer {
        let mut buffer = [UNWRITTEN; CATALOGUE_ROOM];
        let output = &mut buffer[..room.min(CATALOGUE_ROOM)];
        let written = self.owner.write_held(side, output);
        Answer {
            outcome: written.map(|_| ()),
            output: Some(of_bytes(output)),
            catalogue: written.ok().map(|length| (
                length,
                of_bytes(first(output, usize::from(length))),
            )),
            ..Answer::quiet(side)
        }
    }

    fn lend(&mut self, side: Side, lengths: Lengths) {
        self.owner.lend(side, lengths.run, lengths.held_run);
        match side {
            Side::Partner => self.partner_output = lengths.output,
            Side::Cable => self.cable_output = lengths.output,
        }
    }
}
