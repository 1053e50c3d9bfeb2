#![tactic(auto)]

// Drives the dock end by the events on standard input: each gets one line on standard output.
mod event;
mod report;

use dock::{Accepted, Dock};
use report::print_event;
use streams::finish::{AnswersEach, STDOUT, Stop, answer_each};
use streams::input::{GREATEST, read_byte};

// The kind of the event that gives the output buffer another number of bytes. Module `event` has
// the others.
const ROOM: u8 = 0x40;

// How many bytes the output buffer has at the start: those of the longest message.
const FIRST_ROOM: u8 = 28;

// What the output holds before each event, so that a reader sees which bytes were left alone.
const UNWRITTEN: u8 = 0x5A;

// What stays from event to event.
#[derive(Clone, Copy)]
struct State {
    dock: Dock,
    room: u8,
}

fn answer_room(number: u64, dock: Dock) -> Result<State, Stop> {
    let room = read_byte().ok_or(Stop::Cut)?;
    let output = [UNWRITTEN; GREATEST];
    let unchanged = Accepted { length: 0, dock };
    print_event(number, Ok(unchanged), dock, &output[..usize::from(room)]);
    Ok(State { dock, room })
}

fn answer_event(number: u64, kind: u8, state: State) -> Result<State, Stop> {
    let mut buffer = [UNWRITTEN; GREATEST];
    let output = &mut buffer[..usize::from(state.room)];
    let answer = event::take(kind, state.dock, output)?;
    let dock = match answer {
        Ok(accepted) => accepted.dock,
        Err(_) => state.dock,
    };
    print_event(number, answer, dock, output);
    Ok(State { dock, ..state })
}

fn answer_next(number: u64, state: State) -> Result<State, Stop> {
    match read_byte().ok_or(Stop::Ended)? {
        ROOM => answer_room(number, state.dock),
        kind => answer_event(number, kind, state),
    }
}

impl AnswersEach for State {
    fn answer(&mut self, number: u64) -> Result<(), Stop> {
        *self = answer_next(number, *self)?;
        Ok(())
    }
}

fn main() {
    io::write_all(
        STDOUT,
        b"event refusal length buffer standing page count edition\n",
    );
    let mut state = State {
        dock: dock::fresh(),
        room: FIRST_ROOM,
    };
    answer_each(0, &mut state).print(b" events\n");
}
