// A stream of vectors or events on standard input: how many are answered, and how it ended.
ghost use Rattle.std.specs.Prelude.{◌≤◌};

// The number of standard output among the open files.
pub const STDOUT: i32 = 1;

// A proved loop has to end, and nothing says that the input does. So after this many answers the input counts as ended,
// and after this many streams.
pub const MOST: u64 = 1000000;

// Why the vector or event that was to come next is not answered. Of the programs that read several streams, a new one
// may stand in its place, or one that begins badly.
#[derive(Clone, Copy, PartialEq, Eq)]
pub enum Stop {
    NewStream,
    BadStart,
    Ended,
    Unknown,
    Cut,
}

// Why the last was not answered, and how many were answered before it.
#[derive(Clone, Copy)]
pub struct Finish {
    pub stop: Stop,
    pub answered: u64,
}

impl Finish {
    // Prints a program's last line: how the input ended, and how many were answered before that. `name` says of what,
    // and ends the line. It stands once in an output, so it is not worth a buffer.
    pub fn print(self, name: &[u8]) {
        match self.stop {
            Stop::Unknown => io::write_all(STDOUT, b"unknown kind after "),
            Stop::Cut => io::write_all(STDOUT, b"cut after "),
            _ => io::write_all(STDOUT, b"end "),
        };
        io::print_decimal(STDOUT, self.answered);
        io::write_all(STDOUT, name);
    }
}

// What answers the vectors or events of a stream.
pub trait AnswersEach {
    // `number` is that of the vector or event in its own stream.
    fn answer(&mut self, number: u64) -> Result<(), Stop>;
}

// What answers streams.
pub trait AnswersStreams {
    // `stream` is the number of the stream, and `before` says how many were answered of those before it.
    fn answer(&mut self, stream: u64, before: u64) -> Finish
        ensures { before ≤ 1000000 → result.answered ≤ 1000000 };
}

// Answers a stream, after so many answers to the streams before it.
pub fn answer_each<A: AnswersEach>(before: u64, each: &mut A) -> Finish
    ensures { result.answered ≤ 1000000 }
{
    for answered in before..MOST {
        if let Err(stop) = each.answer(answered - before + 1) {
            return Finish { stop, answered };
        }
    }
    Finish {
        stop: Stop::Ended,
        answered: MOST,
    }
}

// Answers the streams.
pub fn answer_streams<A: AnswersStreams>(streams: &mut A) -> Finish
    ensures { result.answered ≤ 1000000 }
{
    let mut finish = streams.answer(1, 0);
    for stream in 2..=MOST {
        if finish.stop != Stop::NewStream {
            break;
        }
        finish = streams.answer(stream, finish.answered);
    }
    finish
}
