#![tactic(auto)]

// The watcher of documents 01 and 02: drives the laptop end by the events on standard input, and prints a line for
// each.
mod acting;

use acting::{act, add_answer};
use driving::lending::Lent;
use events::{LONGEST_EVENT, Missing, read_event};
use port::Port;
use streams::block::Block;
use streams::finish::{AnswersEach, Finish, STDOUT, Stop, answer_each};
use text::line::Line;

// How many bytes are read or written at once.
const BLOCK: usize = 16384;

// The longest line: a number of seven digits, a refusal, eight digits of a header, a page count and a number of SVIDs
// of three digits each, a space before each but the first, and the line end.
const LONGEST_LINE: usize = 29;

// How the input ends where no event is found in it.
fn stop_at(missing: Missing) -> Stop {
    match missing {
        Missing::Unknown => Stop::Unknown,
        Missing::Cut => Stop::Cut,
        Missing::Nothing => Stop::Ended,
    }
}

// What stays from event to event.
#[derive(Drop)]
struct Watcher<'a> {
    port: Port,
    lent: &'a mut Lent,
    input: &'a mut Block<BLOCK>,
    lines: &'a mut Line<BLOCK>,
}

impl AnswersEach for Watcher<'_> {
    fn answer(&mut self, number: u64) -> Result<(), Stop> {
        self.input.refill(LONGEST_EVENT);
        self.lines.make_room(LONGEST_LINE);
        let bytes = self.input.unread();
        let (event, length) = read_event(bytes).map_err(stop_at)?;
        let answer = act(
            self.port,
            self.lent,
            event,
            bytes.get(1..length).unwrap_or(bytes),
        );
        self.port = answer.port;
        self.input.take(length);
        add_answer(self.lines, number, answer);
        Ok(())
    }
}

fn answer_all() -> Finish {
    let mut lent = Lent::new(0);
    let port = lent.begin();
    let mut lines = Line::<BLOCK>::new();
    let finish = answer_each(
        0,
        &mut Watcher {
            port,
            lent: &mut lent,
            input: &mut Block::<BLOCK>::new(),
            lines: &mut lines,
        },
    );
    lines.print();
    finish
}

fn main() {
    io::write_all(STDOUT, b"event refusal sent pages held\n");
    answer_all().print(b" events\n");
}
