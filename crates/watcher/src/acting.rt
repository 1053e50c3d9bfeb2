// What an event makes the laptop end do, and the line that it gets.
use crate::BLOCK;
use driving::fields::{add_held, add_outcome};
use driving::lending::Lent;
use driving::owning::{outcome_of, port_after, sends};
use events::Event;
use messages::Refusal;
use port::{Port, Side, seen};
use text::line::Line;

// A request is one object.
const OBJECT: usize = 4;

// The event's side, what its call led to, the header of the request where one is to be sent, and the port after it.
#[derive(Clone, Copy)]
pub struct Answer {
    side: Side,
    outcome: Result<(), Refusal>,
    sent: Option<u32>,
    pub port: Port,
}

// The bytes of a message stand behind its kind. The port goes by value, apart from what is lent, and is kept in
// registers.
pub fn act(port: Port, lent: &mut Lent, event: Event, body: &[u8]) -> Answer {
    let mut request = [0; OBJECT];
    let (side, stepped) = match event {
        Event::Message(side, _) => (side, lent.hear(port, side, body)),
        Event::Call(side, call) => (side, lent.make(port, side, call, &mut request)),
    };
    Answer {
        side,
        outcome: outcome_of(stepped),
        sent: sends(stepped).then_some(u32::from_le_bytes(request)),
        port: port_after(stepped),
    }
}

pub fn add_answer(lines: &mut Line<BLOCK>, number: u64, answer: Answer) {
    let laptop = seen(answer.side, answer.port);
    lines.decimal(number);
    add_outcome(lines, answer.outcome);
    match answer.sent {
        Some(header) => lines.spaced_word(header),
        None => lines.nothing(),
    }
    lines.field(laptop.pages);
    add_held(lines, laptop.held);
    lines.byte(b'\n');
}
