#![tactic(auto)]

// Answers the catalogue files on standard input: each is read back and mended, or one of its records is read, and gets
// one line on standard output.
mod file;
mod mend_file;
mod read_file;
mod read_record;

use streams::finish::{AnswersEach, STDOUT, Stop, answer_each};
use streams::input::read_byte;

// The kinds of question: each is met in one place, so an enum of them would only say them again.
const READ: u8 = 0x01;

const RECORD: u8 = 0x02;

// Nothing stays from file to file.
#[derive(Clone, Copy)]
struct Files;

impl AnswersEach for Files {
    // As in vectors but for both steps: a shared function would take the two as closures and say no less.
    fn answer(&mut self, number: u64) -> Result<(), Stop> {
        match read_byte().ok_or(Stop::Ended)? {
            READ => read_file::answer(number),
            RECORD => read_record::answer(number),
            _ => Err(Stop::Unknown),
        }
    }
}

fn main() {
    io::write_all(STDOUT, b"file answer\n");
    answer_each(0, &mut Files).print(b" files\n");
}
