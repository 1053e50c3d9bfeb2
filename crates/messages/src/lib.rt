#![tactic(auto)]

// Structured VDMs of USB Power Delivery: document 01, "Message layout". What a message is made of, and the table.
// `reading` reads one off bytes, `writing` writes one.
mod edition;
mod items;
mod object;
mod refusal;
mod request;
mod table;

pub use edition::{Edition, OURS, lower};
pub use items::{first, item_or};
pub use object::bytes_of;
pub use refusal::Refusal;
pub use request::{Request, head_for, same_request};
pub use table::shape;

// What a VDM header says, its edition left out: nothing that is compared looks at that. 01's types are numbers here:
// REQ, ACK, NAK, BUSY. They and the commands stay numbers: any may come off the wire, and `shape` says of each number
// what it is.
#[derive(Clone, Copy)]
pub struct Head {
    pub svid: u16,
    pub command: u8,
    pub kind: u8,
    pub position: u8,
}

pub const REQ: u8 = 0;

pub const ACK: u8 = 1;

pub const NAK: u8 = 2;

pub const BUSY: u8 = 3;

pub const PD_SID: u16 = 0xFF00;

pub const IDENTITY: u8 = 1;

pub const SVIDS: u8 = 2;

pub const MODES: u8 = 3;

pub const ENTER: u8 = 4;

pub const EXIT: u8 = 5;

pub const ATTENTION: u8 = 6;

// A message that was read: its edition, its head, and the number of objects after the header, which stand first among
// the six words, with zeros behind them. All six words are told, as `shown` defines it.
#[derive(Clone, Copy)]
pub struct Received {
    pub edition: Edition,
    pub head: Head,
    pub count: u8,
    pub objects: [u32; 6],
}
