// The events that reach the dock: the body of each kind, and the call that takes it.
use dock::{Accepted, Dock, Policy};
use messages::{Refusal, Request};
use streams::finish::Stop;
use streams::input::{GREATEST, fill, fill_halves, fill_words, read_byte, read_bytes};

// The kinds of event: each is met in one place, so an enum of them would only say them again. From 1 to MOST_OBJECTS, a
// kind is a message of that many objects.
const MOST_OBJECTS: u8 = 7;

const MESSAGE: u8 = 0x08;

const LOAD: u8 = 0x20;

const GIVE: u8 = 0x21;

const NAK: u8 = 0x22;

const BUSY: u8 = 0x23;

const SENT: u8 = 0x30;

const FAILED: u8 = 0x31;

// The bytes of an object.
const OBJECT: u8 = 4;

// The dock's answer to an event.
pub type Answer = Result<Accepted, Refusal>;

fn take_message(length: u8, dock: Dock, output: &mut [u8]) -> Result<Answer, Stop> {
    let mut buffer = [0u8; GREATEST];
    let message = &mut buffer[..usize::from(length)];
    fill(message)?;
    Ok(receiving::message(dock, message, output))
}

fn take_load(dock: Dock) -> Result<Answer, Stop> {
    let [objects, count] = read_bytes::<2>()?;
    let mut words = [0u32; GREATEST];
    let identity = &mut words[..usize::from(objects)];
    fill_words(identity)?;
    let mut halves = [0u16; GREATEST];
    let svids = &mut halves[..usize::from(count)];
    fill_halves(svids)?;
    Ok(loading::load(dock, identity, svids))
}

fn take_answer(policy: Policy, dock: Dock, output: &mut [u8]) -> Result<Answer, Stop> {
    let [low, high, command, position, count] = read_bytes::<5>()?;
    let request = Request {
        svid: u16::from_le_bytes([low, high]),
        command,
        position,
    };
    let mut words = [0u32; GREATEST];
    let objects = &mut words[..usize::from(count)];
    fill_words(objects)?;
    Ok(answering::policy_answer(dock, policy, request, objects, output))
}

pub fn take(kind: u8, dock: Dock, output: &mut [u8]) -> Result<Answer, Stop> {
    match kind {
        1..=MOST_OBJECTS => take_message(OBJECT * kind, dock, output),
        MESSAGE => take_message(read_byte().ok_or(Stop::Cut)?, dock, output),
        LOAD => take_load(dock),
        GIVE => take_answer(Policy::Give, dock, output),
        NAK => take_answer(Policy::Nak, dock, output),
        BUSY => take_answer(Policy::Busy, dock, output),
        SENT => Ok(confirming::sent(dock)),
        FAILED => Ok(confirming::failed(dock)),
        _ => Err(Stop::Unknown),
    }
}
