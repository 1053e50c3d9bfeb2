#![tactic(auto)]

// The dock end (Responder): its state, and what every call is made of. Document 01, "The dock end". `loading` has its data, `receiving` the message that
// arrives, `answering` policy's answer, `confirming` what becomes of it.
mod replying;
mod unloaded;

use messages::{Edition, Request};
pub use replying::{send, send_bare, spoken_at, standing_at};
pub use unloaded::fresh;

// Where the dock stands: asking policy for one request, or sending an answer (true: a page of its list).
// Of an answer nothing else is known, so a bool: an enum would say true and false by other names.
#[derive(Clone, Copy, PartialEq, Eq)]
pub enum Standing {
    Ready,
    Asking(Request),
    Sending(bool),
}

// The dock's data: identity objects and their extent, which is their number (0: not loaded); SVIDs, their count and the present page; the edition of its
// answer, which is known when ready too; and where it stands.
// Numbers stand between the two arrays, and no gap before either: then the compiler sees that a copy of the whole has the very array that was lent, and
// keeps no array of its own.
#[derive(Clone, Copy)]
pub struct Dock {
    pub identity: [u32; 6],
    pub extent: u8,
    pub count: u8,
    pub svids: [u16; 72],
    pub page: u8,
    pub edition: Edition,
    pub standing: Standing,
}

#[derive(Clone, Copy)]
pub enum Policy {
    Give,
    Nak,
    Busy,
}

// What a call that is accepted gives back: how many bytes of the output buffer are to be sent, and the new state.
// A refusal leaves the state as it is.
#[derive(Clone, Copy)]
pub struct Accepted {
    pub length: u8,
    pub dock: Dock,
}
