#![tactic(auto)]

// Drives the laptop end by the streams of events on standard input, which can lend each side runs and buffers of any length: each event gets one line.
mod answering;
mod event;
mod report;

use answering::State;
use event::{LONGEST_MESSAGE, take_event};
use report::print_event;
use streams::finish::{
    AnswersEach, AnswersStreams, Finish, STDOUT, Stop, answer_each, answer_streams,
};

// The number of a stream, and what stays from event to event.
#[derive(Clone, Copy)]
struct Events {
    stream: u64,
    state: State,
}

impl AnswersEach for Events {
    fn answer(&mut self, number: u64) -> Result<(), Stop> {
        let mut message = [0; LONGEST_MESSAGE];
        let (side, event) = take_event(&mut message)?;
        let answer = self.state.take(side, event);
        print_event(self.stream, number, &answer, &self.state.owner);
        Ok(())
    }
}

// Nothing stays from stream to stream.
#[derive(Clone, Copy)]
struct Streams;

impl AnswersStreams for Streams {
    // A stream begins with a fresh port.
    fn answer(&mut self, stream: u64, before: u64) -> Finish {
        let state = State::new();
        answer_each(before, &mut Events { stream, state })
    }
}

fn main() {
    io::write_all(
        STDOUT,
        b"stream event side refusal sent output told awaited candidate pages held edition",
    );
    io::write_all(
        STDOUT,
        b" candidate_run held_run catalogue report other_candidate other_pages other_held other_edition\n",
    );
    answer_streams(&mut Streams).print(b" events\n");
}
