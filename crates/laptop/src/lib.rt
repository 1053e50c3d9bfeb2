#![tactic(auto)]

// The laptop end (Initiator): its state, what every call is made of, and the report of entered modes. Document 01, "The
// laptop end". `owner` and `modes` have the owner's calls, `timers` the timers, `hearing` the message that arrives.
//
// What is small goes by value in a `Laptop`. Lent beside it, in arrays that every call leaves as its promise says: the
// candidate's SVIDs, the number of modes of each and its identity objects; the same of the held catalogue; the entered
// modes of each held SVID, a bit for each position; and the two runs of mode words.
mod calls;
mod marks;
mod numbered;
mod places;

pub use calls::{accept, dropped, ended, fresh, refuse, short_runs};
pub use marks::{marked, named, report, six_bits, unmarked};
use messages::{Edition, Refusal, Request};
pub use places::{held_list, modes_number, place_of};

// No candidate, its list is open, or its list is done and modes are missing.
#[derive(Clone, Copy, PartialEq, Eq)]
pub enum Candidate {
    Absent,
    Open,
    Done,
}

// How many identity objects (the extent) and SVIDs (the count) a catalogue has.
// The arrays are lent by themselves, as C lends them.
#[derive(Clone, Copy, PartialEq, Eq)]
pub struct Size {
    pub extent: u8,
    pub count: u8,
}

// The request whose answer is awaited, where the candidate stands and its size, how many of its SVIDs have their modes
// stored, the pages counted since the last Identity was sent, the size of the catalogue that is held, and the edition
// of what is sent.
#[derive(Clone, Copy)]
pub struct Laptop {
    pub wait: Option<Request>,
    pub candidate: Candidate,
    pub gathered: Size,
    pub stored: u8,
    pub pages: u8,
    pub held: Option<Size>,
    pub edition: Edition,
}

// An Attention: its SVID and position, and how many objects follow its header (0 or 1), with that object or 0.
#[derive(Clone, Copy)]
pub struct Notice {
    pub svid: u16,
    pub position: u8,
    pub count: u8,
    pub object: u32,
}

// What policy is told: an Attention, or what ended the wait of an enter or exit that came to nothing.
// Nothing is one of six things told, as 0 is of the numbers in C: an Option of five would be no plainer.
#[derive(Clone, Copy)]
pub enum Told {
    Nothing,
    Attention(Notice),
    Nak(Request),
    Busy(Request),
    Timer(Request),
    ProtocolError(Request),
}

// What a call gives back: how many bytes of the output buffer are to be sent, what policy is told, and the new state.
#[derive(Clone, Copy)]
pub struct Accepted {
    pub length: u8,
    pub told: Told,
    pub laptop: Laptop,
}

// Or why it refuses, and the state that it leaves.
#[derive(Clone, Copy)]
pub struct Refused {
    pub refusal: Refusal,
    pub laptop: Laptop,
}

// The same by its numbers: the refusal is any number, 0 for none.
#[derive(Clone, Copy)]
pub struct Step {
    pub refusal: u8,
    pub length: u8,
    pub told: Told,
    pub laptop: Laptop,
}

// A lent run has at least so many words, six for each SVID.
pub const RUN_WORDS: usize = 432;

pub const MODES_EACH: usize = 6;
