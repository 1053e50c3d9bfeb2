// The laptop end's calls off standard input.
use events::{Call, Event, LONGEST_EVENT, body_length, read_event};
use streams::finish::Stop;
use streams::input::fill;

// The call of a kind, with its body from standard input. The kind stands first, and the body is read behind it.
pub fn take_call(kind: u8) -> Result<Call, Stop> {
    let mut buffer = [kind; LONGEST_EVENT];
    let event = &mut buffer[..1 + body_length(kind)];
    fill(&mut event[1..])?;
    match read_event(event) {
        Ok((Event::Call(_, call), _)) => Ok(call),
        _ => Err(Stop::Unknown),
    }
}
