// Cases 11 and 12: both ends, joined.
use crate::link::Ends;
use crate::owner_turns::laptop_of;
use crate::report::{add_catalogue, add_message, add_named, add_refused, begin_case};
use crate::written::Message;
use dock::Policy;
use driving::fields::add_held;

fn print_received(ends: &Ends) {
    let laptop = laptop_of(&ends.owner);
    let mut line = begin_case(11);
    line.text(b" n=");
    line.decimal(u64::from(ends.dock.count));
    add_named(&mut line, b", first page unconfirmed once:", laptop.pages);
    line.text(b" pages received,");
    add_held(&mut line, laptop.held);
    line.text(b" SVIDs held");
    line.print_line();
}

pub fn print_unconfirmed() {
    let mut ends = Ends::new(13);
    ends.confirmed_exchange(Policy::Give);
    ends.exchange(Policy::Give);
    ends.fail();
    ends.gather();
    print_received(&ends);
}

fn print_held(ends: &Ends) {
    let mut line = begin_case(12);
    add_catalogue(&mut line, &ends.owner);
    line.print_line();
}

fn print_refused(page: Message, ends: &Ends) {
    let mut line = begin_case(12);
    add_message(&mut line, page);
    line.text(b", then");
    add_message(&mut line, ends.answer);
    add_refused(&mut line, ends.outcome);
    line.print_line();
}

// The old catalogue has one SVID; the dock is then loaded with twelve.
pub fn print_old_held() {
    let mut ends = Ends::new(1);
    ends.confirmed_exchange(Policy::Give);
    ends.gather();
    print_held(&ends);
    ends.reload(12);
    ends.confirmed_exchange(Policy::Give);
    ends.confirmed_exchange(Policy::Give);
    let page = ends.answer;
    ends.confirmed_exchange(Policy::Nak);
    print_refused(page, &ends);
    print_held(&ends);
}
