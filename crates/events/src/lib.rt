#![tactic(auto)]

// Laptop events as bytes: document 01, "Catalogue bytes and the watcher program", and document 02, R-4. One byte of
// kind, then a body whose length the kind fixes.
mod calls;
mod kinds;

ghost use Rattle.std.specs.Prelude.{◌≡◌, ◌+◌, ◌≤◌, length, drop};
ghost use Rattle.events.specs.Events.{body_length, event_of, event_in};

use calls::call_of;
pub use kinds::{LONGEST_EVENT, body_length, side_of, without_side};
use kinds::{is_known, is_message};
use port::Side;

// What *enter* and *exit* name.
// As a Request but for the command, which the call itself says.
#[derive(Clone, Copy)]
pub struct Mode {
    pub svid: u16,
    pub position: u8,
}

// An owner's call, a timer or the protocol error.
#[derive(Clone, Copy)]
pub enum Call {
    Next,
    StartOver,
    Drop,
    ResponseTimer,
    EntryTimer,
    ExitTimer,
    ProtocolError,
    Enter(Mode),
    Exit(Mode),
}

// With its side, which is the partner's for a timer and the protocol error. A message has its number of objects.
#[derive(Clone, Copy)]
pub enum Event {
    Message(Side, u8),
    Call(Side, Call),
}

// Why no whole event stands first among bytes: they have a kind that there is not, or a body that is cut, or there are
// none.
#[derive(Clone, Copy)]
pub enum Missing {
    Unknown,
    Cut,
    Nothing,
}

#[tactic(auto, unfolding(crate::specs::Events::event_of, crate::specs::Events::event_on, crate::specs::Events::body_length))]
fn event_of(kind: u8, bytes: &[u8]) -> Event
    requires { 1 + body_length kind ≤ length bytes.now }
    ensures { result ≡ event_of kind (drop 1 bytes.now) }
{
    let side = side_of(kind);
    let partners = without_side(kind);
    if is_message(partners) {
        Event::Message(side, partners)
    } else {
        Event::Call(side, call_of(partners, bytes))
    }
}

// The event that stands first among bytes, and the number of its bytes, the kind counted.
#[tactic(auto, unfolding(crate::specs::Events::event_in))]
pub fn read_event(bytes: &[u8]) -> Result<(Event, usize), Missing>
    ensures { result ≡ event_in bytes.now }
{
    let Some(&kind) = bytes.first() else {
        return Err(Missing::Nothing);
    };
    if !is_known(kind) {
        return Err(Missing::Unknown);
    }
    let length = 1 + body_length(kind);
    if bytes.len() < length {
        return Err(Missing::Cut);
    }
    Ok((event_of(kind, bytes), length))
}
