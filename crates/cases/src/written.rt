// A message as one end writes it for the other.
use messages::{Edition, Head, first};

// The bytes of the longest message, and of an object.
pub const LONGEST: usize = 28;

const OBJECT: usize = 4;

// The message is the first bytes, so many as its length says.
// `first` takes any length, so nothing has to hold of this one.
#[derive(Clone, Copy)]
pub struct Message {
    bytes: [u8; LONGEST],
    length: usize,
}

impl Message {
    pub fn new(bytes: [u8; LONGEST], length: usize) -> Message {
        Message { bytes, length }
    }

    // Nothing is a message of no bytes, and no Option: an end that hears it refuses it as any other.
    pub fn nothing() -> Message {
        Message::new([0; LONGEST], 0)
    }

    pub fn bytes(&self) -> &[u8] {
        first(&self.bytes, self.length)
    }

    // The message of a head that has no position, at 2.0, or nothing where it is refused.
    pub fn write(svid: u16, command: u8, kind: u8, objects: &[u32]) -> Message {
        let head = Head {
            svid,
            command,
            kind,
            position: 0,
        };
        let mut bytes = [0; LONGEST];
        match writing::write(Edition::TwoZero, head, objects, &mut bytes) {
            Ok(()) => Message::new(bytes, OBJECT + objects.len() * OBJECT),
            Err(_) => Message::nothing(),
        }
    }
}
