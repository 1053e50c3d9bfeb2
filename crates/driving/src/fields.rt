// What a line says of its event and of a side's laptop. Each field but the first has a space before it, and is `-`
// where there is nothing to tell.
// No Display: an impl would have to stand in the crate of the type, firmware that knows no words of programs.
use crate::line::Line;
use laptop::{Candidate, Laptop, Size};
use messages::{Refusal, Request};
use port::Side;
use text::line;

// A line starts with the number of a stream and of an event in it.
pub fn begin_line(stream: u64, number: u64) -> Line {
    let mut line = Line::new();
    line.decimal(stream);
    line.field(number);
    line
}

// A colon and the number.
pub fn add_part(line: &mut Line, number: u8) {
    line.byte(b':');
    line.decimal(u64::from(number));
}

// The SVID, the command and the position, with no space before them.
pub fn add_request(line: &mut Line, request: Request) {
    line.half(request.svid);
    add_part(line, request.command);
    add_part(line, request.position);
}

// The side's name.
pub fn add_side(line: &mut Line, side: Side) {
    match side {
        Side::Partner => line.text(b" partner"),
        Side::Cable => line.text(b" cable"),
    }
}

// The side whose answer is awaited, and the request.
pub fn add_awaited(line: &mut Line, wait: Option<(Side, Request)>) {
    let Some((side, request)) = wait else {
        return line.nothing();
    };
    add_side(line, side);
    line.byte(b':');
    add_request(line, request);
}

// How many SVIDs are gathered and, once the list is done, of how many the modes are known.
pub fn add_candidate(line: &mut Line, laptop: Laptop) {
    let count = laptop.gathered.count;
    match laptop.candidate {
        Candidate::Absent => line.text(b" none"),
        Candidate::Open => {
            line.text(b" open");
            add_part(line, count);
        }
        Candidate::Done => {
            line.text(b" done");
            add_part(line, count);
            add_part(line, laptop.stored);
        }
    }
}

// The number of held SVIDs.
pub fn add_held<const N: usize>(line: &mut line::Line<N>, held: Option<Size>) {
    match held {
        Some(size) => line.field(size.count),
        None => line.nothing(),
    }
}

// The number of what a call led to: 0, or the refusal's.
pub fn add_outcome<const N: usize>(line: &mut line::Line<N>, outcome: Result<(), Refusal>) {
    match outcome {
        Ok(()) => line.field(0u8),
        Err(refusal) => line.field(u8::from(refusal)),
    }
}
