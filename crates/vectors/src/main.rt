#![tactic(auto)]

// Answers the vectors on standard input: each asks the message library to read or to write one
// message, and gets one line on standard output.
mod read_vector;
mod write_vector;

use streams::finish::{AnswersEach, STDOUT, Stop, answer_each};
use streams::input::read_byte;
use text::line;

// The kinds of vector: each is met in one place, so an enum of them would only say them again.
const READ: u8 = 1;

const WRITE: u8 = 2;

// The longest line answers a write: a number of seven digits, " write ", a refusal of three digits,
// a space, 255 bytes of two digits each and the line end.
const LONGEST: usize = 529;

// It starts with the vector's number and what the vector asks.
type Line = line::Line<LONGEST>;

// Nothing stays from vector to vector.
#[derive(Clone, Copy)]
struct Vectors;

impl AnswersEach for Vectors {
    // As in catalogue_files but for both steps: a shared function would take the two as closures and say no less.
    fn answer(&mut self, number: u64) -> Result<(), Stop> {
        match read_byte().ok_or(Stop::Ended)? {
            READ => read_vector::answer(number),
            WRITE => write_vector::answer(number),
            _ => Err(Stop::Unknown),
        }
    }
}

fn main() {
    io::write_all(STDOUT, b"vector answer\n");
    answer_each(0, &mut Vectors).print(b" vectors\n");
}
