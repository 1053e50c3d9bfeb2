// Cases 1 to 8: what the dock answers to Discover SVIDs at 2.0, until the page stays.
use crate::report::{add_message, add_named, begin_case};
use crate::responder::{after, load, reply};
use crate::written::Message;
use dock::{Dock, Policy};
use messages::{PD_SID, REQ, SVIDS};

// A proved loop has to end. No list has so many pages.
const BUDGET: u8 = 100;

fn print_answer(case: u8, number: u8, dock: &Dock, answer: Message) {
    let mut line = begin_case(case);
    line.text(b" n=");
    line.decimal(u64::from(dock.count));
    add_named(&mut line, b", answer", number);
    line.byte(b':');
    add_message(&mut line, answer);
    line.print_line();
}

pub fn print_answers(case: u8, count: usize) {
    let request = Message::write(PD_SID, SVIDS, REQ, &[]);
    let mut dock = dock::fresh();
    load(&mut dock, count);
    for number in 1..=BUDGET {
        let page = dock.page;
        let answer = reply(&mut dock, Policy::Give, request);
        print_answer(case, number, &dock, answer);
        dock = after(dock, confirming::sent(dock));
        if dock.page == page {
            break;
        }
    }
}
