// The events, and reading one from standard input.
use driving::calls::take_call;
use driving::memory::RUN;
use events::{Call, side_of, without_side};
use port::Side;
use streams::finish::Stop;
use streams::input::{fill, read_byte, read_bytes};

// The partner's kinds of event. From FIRST_CALL to LAST_CALL they are those of the watcher. All but the timers and the protocol error say a side: the
// cable's are the same with their side added.
// Any byte may come, and each is met in one pattern: `Event` is their enum.
const MESSAGE: u8 = 0x01;

const FIRST_CALL: u8 = 0x40;

const LAST_CALL: u8 = 0x48;

const REPORT: u8 = 0x49;

const CATALOGUE: u8 = 0x4A;

const LENGTHS: u8 = 0x4B;

const NEW_STREAM: u8 = 0x4C;

// A greater number in the stream counts as this one: bytes of a message, bytes of a catalogue's output buffer, words of a run.
pub const LONGEST_MESSAGE: usize = 40;

pub const CATALOGUE_ROOM: usize = 2500;

// How much later calls of a side are lent: bytes of the output buffer, words of the candidate's run and of the held run.
#[derive(Clone, Copy)]
pub struct Lengths {
    pub output: u8,
    pub run: usize,
    pub held_run: usize,
}

// A message has its bytes, a report its SVID, writing the catalogue the length of its output buffer.
#[derive(Clone, Copy)]
pub enum Event<'a> {
    Message(&'a [u8]),
    Call(Call),
    Report(u16),
    Catalogue(usize),
    Lengths(Lengths),
}

fn take_byte() -> Result<u8, Stop> {
    read_byte().ok_or(Stop::Cut)
}

fn take_half() -> Result<u16, Stop> {
    Ok(u16::from_le_bytes(read_bytes()?))
}

fn length_in(half: u16, most: usize) -> usize {
    usize::from(half).min(most)
}

fn take_message(message: &mut [u8]) -> Result<Event<'_>, Stop> {
    let length = usize::from(take_byte()?).min(message.len());
    let bytes = &mut message[..length];
    fill(bytes)?;
    Ok(Event::Message(bytes))
}

// All three are read at once.
fn take_lengths() -> Result<Lengths, Stop> {
    let [output, run, run_high, held_run, held_run_high] = read_bytes::<5>()?;
    Ok(Lengths {
        output,
        run: length_in(u16::from_le_bytes([run, run_high]), RUN),
        held_run: length_in(u16::from_le_bytes([held_run, held_run_high]), RUN),
    })
}

fn take_body(kind: u8, message: &mut [u8]) -> Result<Event<'_>, Stop> {
    match without_side(kind) {
        MESSAGE => take_message(message),
        FIRST_CALL..=LAST_CALL => Ok(Event::Call(take_call(kind)?)),
        REPORT => Ok(Event::Report(take_half()?)),
        CATALOGUE => Ok(Event::Catalogue(length_in(take_half()?, CATALOGUE_ROOM))),
        LENGTHS => Ok(Event::Lengths(take_lengths()?)),
        _ => Err(Stop::Unknown),
    }
}

// The event that stands next, with its side. The bytes of a message are put into the buffer.
pub fn take_event(message: &mut [u8]) -> Result<(Side, Event<'_>), Stop> {
    match read_byte().ok_or(Stop::Ended)? {
        NEW_STREAM => Err(Stop::NewStream),
        kind => Ok((side_of(kind), take_body(kind, message)?)),
    }
}
