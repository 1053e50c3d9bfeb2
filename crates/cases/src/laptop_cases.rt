// Case 10 and Case L: what the laptop does with answers that are given to it, all at 2.0.
use crate::owner_turns::{Turn, hear, laptop_of, next};
use crate::report::{add_catalogue, add_message, add_named, add_refused, begin_case};
use crate::responder::{IDENTITY_OBJECTS, MODE};
use crate::written::Message;
use driving::fields::{add_held, add_outcome};
use driving::line::Line;
use driving::owning::Owner;
use messages::{ACK, IDENTITY, MODES, PD_SID, SVIDS};

// The SVID of Case L, and a page of it alone.
const SVID: u16 = 0xFF01;

const PAGE: [u32; 1] = [0xFF010000];

fn identity() -> Message {
    Message::write(PD_SID, IDENTITY, ACK, &IDENTITY_OBJECTS)
}

pub fn print_bad_page() {
    let page = Message::write(PD_SID, SVIDS, ACK, &[0x00010000, 0x00020000]);
    let mut owner = Owner::new(0);
    next(&mut owner);
    hear(&mut owner, identity());
    next(&mut owner);
    let heard = hear(&mut owner, page);
    let mut line = begin_case(10);
    add_message(&mut line, page);
    add_refused(&mut line, heard.outcome);
    line.print_line();
}

// The watcher's line of an event.
fn print_turn(number: u8, turn: Turn, owner: &Owner) {
    let laptop = laptop_of(owner);
    let mut line = Line::new();
    add_named(&mut line, b"case L:", number);
    add_outcome(&mut line, turn.outcome);
    if turn.request.bytes().is_empty() {
        line.nothing();
    } else {
        add_message(&mut line, turn.request);
    }
    line.field(laptop.pages);
    add_held(&mut line, laptop.held);
    line.print_line();
}

// The laptop asks what it needs next, and hears the answer: the events of these numbers.
fn print_exchange(asking: u8, hearing: u8, answer: Message, owner: &mut Owner) {
    let asked = next(owner);
    print_turn(asking, asked, owner);
    let heard = hear(owner, answer);
    print_turn(hearing, heard, owner);
}

pub fn print_case_l() {
    let mut owner = Owner::new(0);
    print_exchange(1, 2, identity(), &mut owner);
    print_exchange(3, 4, Message::write(PD_SID, SVIDS, ACK, &PAGE), &mut owner);
    print_exchange(5, 6, Message::write(SVID, MODES, ACK, &[MODE]), &mut owner);
    let mut line = Line::new();
    line.text(b"case L:");
    add_catalogue(&mut line, &owner);
    line.print_line();
}
