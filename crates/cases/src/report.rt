// The parts of a case's lines.
use crate::owner_turns::laptop_of;
use crate::written::Message;
use driving::fields::{add_held, add_outcome};
use driving::line::Line;
use driving::owning::Owner;
use messages::{Refusal, first};
use port::Side;

// 01's bound on the bytes of a catalogue.
const CATALOGUE: usize = 2402;

// A number with its name before it.
pub fn add_named<T: Into<u64>>(line: &mut Line, name: &[u8], number: T) {
    line.text(name);
    line.field(number);
}

// A line starts with the number of its case, from 1 to 12.
pub fn begin_case(number: u8) -> Line {
    let mut line = Line::new();
    add_named(&mut line, b"case", number);
    line.byte(b':');
    line
}

// The objects of a message as numbers.
pub fn add_objects(line: &mut Line, bytes: &[u8]) {
    let (objects, _) = bytes.as_chunks();
    for object in objects {
        line.spaced_word(u32::from_le_bytes(*object));
    }
}

pub fn add_message(line: &mut Line, message: Message) {
    add_objects(line, message.bytes());
}

pub fn add_refused(line: &mut Line, outcome: Result<(), Refusal>) {
    line.text(b": refused");
    add_outcome(line, outcome);
}

pub fn add_catalogue(line: &mut Line, owner: &Owner) {
    let mut buffer = [0; CATALOGUE];
    let length = owner.write_held(Side::Partner, &mut buffer).unwrap_or(0);
    line.text(b" held");
    add_held(line, laptop_of(owner).held);
    add_named(line, b", catalogue of", length);
    line.text(b" bytes ");
    line.bytes(first(&buffer, usize::from(length)));
}
