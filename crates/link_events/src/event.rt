// The events, and reading one from standard input.
use driving::calls::take_call;
use events::{Call, side_of, without_side};
use port::Side;
use streams::finish::Stop;
use streams::input::read_byte;

// The partner's kinds of event. The laptop's calls have those of the watcher. All but the timer and the protocol error say a side: the cable's are the same
// with their side added.
// Any byte may come, and each is met in one pattern: `Event` is their enum.
const NEXT: u8 = 0x40;

const DROP: u8 = 0x42;

const TIMER: u8 = 0x43;

const PROTOCOL_ERROR: u8 = 0x46;

const ENTER: u8 = 0x47;

const EXIT: u8 = 0x48;

const REQUEST_REACHES: u8 = 0x50;

const REQUEST_LOST: u8 = 0x51;

const GIVE: u8 = 0x52;

const BUSY: u8 = 0x53;

const ANSWER_ARRIVES: u8 = 0x54;

const ANSWER_LOST: u8 = 0x55;

const SENT: u8 = 0x56;

const FAILED: u8 = 0x57;

const NEW_STREAM: u8 = 0x58;

// An owner's call, the timer of the awaited command, the protocol error, or an event on the side's link.
#[derive(Clone, Copy)]
pub enum Event {
    Call(Call),
    Timer,
    ProtocolError,
    Linked(linking::Event),
}

// Of the kinds that say a side.
fn take_for_side(kind: u8) -> Result<Event, Stop> {
    match without_side(kind) {
        NEXT..=DROP | ENTER..=EXIT => Ok(Event::Call(take_call(kind)?)),
        REQUEST_REACHES => Ok(Event::Linked(linking::Event::RequestReaches)),
        REQUEST_LOST => Ok(Event::Linked(linking::Event::RequestLost)),
        GIVE => Ok(Event::Linked(linking::Event::Give)),
        BUSY => Ok(Event::Linked(linking::Event::Busy)),
        ANSWER_ARRIVES => Ok(Event::Linked(linking::Event::AnswerArrives)),
        ANSWER_LOST => Ok(Event::Linked(linking::Event::AnswerLost)),
        SENT => Ok(Event::Linked(linking::Event::Sent)),
        FAILED => Ok(Event::Linked(linking::Event::Failed)),
        _ => Err(Stop::Unknown),
    }
}

// The event that stands next, with the side that it says.
pub fn take_event() -> Result<(Side, Event), Stop> {
    match read_byte().ok_or(Stop::Ended)? {
        TIMER => Ok((Side::Partner, Event::Timer)),
        PROTOCOL_ERROR => Ok((Side::Partner, Event::ProtocolError)),
        NEW_STREAM => Err(Stop::NewStream),
        kind => Ok((side_of(kind), take_for_side(kind)?)),
    }
}
