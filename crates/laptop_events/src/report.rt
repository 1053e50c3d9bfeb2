// The line that an event gets: the number of its stream, its own in that stream, its side, what the call led to, what the side's laptop and its runs have come to,
// what was read, and what the other side's laptop has come to.
use crate::answering::Answer;
use driving::digest::of_words;
use driving::fields::{
    add_awaited, add_candidate, add_held, add_outcome, add_part, add_request, add_side, begin_line,
};
use driving::line::Line;
use driving::memory::Memory;
use driving::owning::{Owner, other};
use laptop::{Laptop, Notice, Told};
use messages::Request;

fn add_word(line: &mut Line, word: Option<u32>) {
    match word {
        Some(word) => line.spaced_word(word),
        None => line.nothing(),
    }
}

fn add_attention(line: &mut Line, notice: Notice) {
    line.text(b" attention:");
    line.half(notice.svid);
    add_part(line, notice.position);
    add_part(line, notice.count);
    line.byte(b':');
    line.word(notice.object);
}

fn add_unmarked(line: &mut Line, reason: &[u8], request: Request) {
    line.text(reason);
    add_request(line, request);
}

fn add_told(line: &mut Line, told: Told) {
    match told {
        Told::Nothing => line.nothing(),
        Told::Attention(notice) => add_attention(line, notice),
        Told::Nak(request) => add_unmarked(line, b" nak:", request),
        Told::Busy(request) => add_unmarked(line, b" busy:", request),
        Told::Timer(request) => add_unmarked(line, b" timer:", request),
        Told::ProtocolError(request) => add_unmarked(line, b" error:", request),
    }
}

fn add_step(line: &mut Line, answer: &Answer) {
    add_side(line, answer.side);
    add_outcome(line, answer.outcome);
    add_word(line, answer.sent);
    add_word(line, answer.output);
    add_told(line, answer.told);
}

fn add_laptop(line: &mut Line, laptop: Laptop) {
    add_candidate(line, laptop);
    line.field(laptop.pages);
    add_held(line, laptop.held);
    line.edition(u8::from(laptop.edition));
}

fn add_runs(line: &mut Line, memory: &Memory) {
    line.spaced_word(of_words(&memory.run));
    line.spaced_word(of_words(&memory.held_run));
}

// What was read of a side.
fn add_readings(line: &mut Line, answer: &Answer) {
    match answer.catalogue {
        Some((length, digest)) => {
            line.field(length);
            line.byte(b':');
            line.word(digest);
        }
        None => line.nothing(),
    }
    match answer.report {
        Some(count) => line.field(count),
        None => line.nothing(),
    }
}

pub fn print_event(stream: u64, number: u64, answer: &Answer, owner: &Owner) {
    let side = answer.side;
    let mut line = begin_line(stream, number);
    add_step(&mut line, answer);
    add_awaited(&mut line, owner.port.wait);
    add_laptop(&mut line, owner.laptop(side));
    add_runs(&mut line, owner.lent(side));
    add_readings(&mut line, answer);
    add_laptop(&mut line, owner.laptop(other(side)));
    line.print_line();
}
