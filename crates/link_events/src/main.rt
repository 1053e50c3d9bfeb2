#![tactic(auto)]

// Joins each side of the laptop end and a dock end by the link of demand 3, drives them by the streams of events on standard input, and prints a line for
// each event.
mod begin;
mod event;
mod joined;
mod report;
mod system;

use event::take_event;
use linking::start::read_start;
use report::print_event;
use streams::finish::{
    AnswersEach, AnswersStreams, Finish, STDOUT, Stop, answer_each, answer_streams,
};
use system::Ends;

// The number of a stream, and what stays from event to event.
#[derive(Clone, Copy)]
struct Events {
    stream: u64,
    ends: Ends,
}

impl AnswersEach for Events {
    fn answer(&mut self, number: u64) -> Result<(), Stop> {
        let (said, event) = take_event()?;
        let side = self.ends.take(said, event);
        print_event(self.stream, number, side, &self.ends);
        Ok(())
    }
}

// Nothing stays from stream to stream.
#[derive(Clone, Copy)]
struct Streams;

impl AnswersStreams for Streams {
    // A stream begins with what each side begins with.
    fn answer(&mut self, stream: u64, before: u64) -> Finish {
        let (Some(partner), Some(cable)) = (read_start(), read_start()) else {
            return Finish {
                stop: Stop::BadStart,
                answered: before,
            };
        };
        let ends = Ends::new(partner, cable);
        answer_each(before, &mut Events { stream, ends })
    }
}

fn main() {
    io::write_all(
        STDOUT,
        b"stream event side permitted refusal pages candidate held catalogue page lost",
    );
    io::write_all(
        STDOUT,
        b" edition dock_edition other_pages other_candidate other_held other_edition\n",
    );
    let finish = answer_streams(&mut Streams);
    if finish.stop == Stop::BadStart {
        io::write_all(STDOUT, b"bad dock data\n");
    } else {
        finish.print(b" events\n");
    }
}
