#![tactic(auto)]

// The laptop end as its users know it: a catalogue of the port partner, and one of the near cable plug. Document 02,
// R-4. Each side is a laptop of document 01, and one wait is shared by the two.
//
// What is small goes by value in a `Port`. A call for a side is lent that side's arrays and runs alone, which are those
// of `laptop`.
mod arrival;
mod freshness;
mod owners;
mod readings;
mod sides;
mod waiting;

pub use arrival::message;
pub use freshness::fresh;
use laptop::{Candidate, Size, Told};
use messages::{Edition, Refusal, Request};
pub use owners::{drop, enter, exit, next, start_over};
pub use readings::{report, write_catalogue};
pub use sides::{given_on, seen, stepped_on};
pub use waiting::{entry_timer, exit_timer, protocol_error, response_timer};

// The port partner, or the near cable plug.
#[derive(Clone, Copy, PartialEq, Eq)]
pub enum Side {
    Partner,
    Cable,
}

// What a side has of its own: a `Laptop` but for what is awaited.
// A Laptop made of an Own would change each definition and theorem of 01 that names a field of it.
#[derive(Clone, Copy, PartialEq, Eq)]
pub struct Own {
    pub candidate: Candidate,
    pub gathered: Size,
    pub stored: u8,
    pub pages: u8,
    pub held: Option<Size>,
    pub edition: Edition,
}

// The request whose answer is awaited, with its side.
// The sides are two fields, which the definitions name: two arms of a match choose one.
#[derive(Clone, Copy)]
pub struct Port {
    pub wait: Option<(Side, Request)>,
    pub partner: Own,
    pub cable: Own,
}

// What a call gives back: how many bytes of the output buffer are to be sent, what policy is told and of which side,
// and the new state. A timer's side is the one that waited, or the partner where none did.
#[derive(Clone, Copy)]
pub struct Accepted {
    pub length: u8,
    pub told: Told,
    pub side: Side,
    pub port: Port,
}

// Or why it refuses, of which side, and the state that it leaves.
#[derive(Clone, Copy)]
pub struct Refused {
    pub refusal: Refusal,
    pub side: Side,
    pub port: Port,
}

// The same by its numbers: the refusal is any number, 0 for none.
#[derive(Clone, Copy)]
pub struct Step {
    pub refusal: u8,
    pub length: u8,
    pub told: Told,
    pub side: Side,
    pub port: Port,
}
