// Lines that name an argument, or a file whose name is made of one.
use crate::argument::ROOM;
use std::fmt::Write;
use std::io::Error;
use text::line::Line;

// The longest of the sentences before an argument, the argument, and the line end.
const LONGEST: usize = 14 + ROOM;

// The longest of the endings behind an argument: `.partial.unfinished`.
const ENDING: usize = 19;

// Room for an argument with any ending, so that no name is cut to that of another file.
pub const NAME_ROOM: usize = ROOM + ENDING;

// The number of standard error among the open files.
pub const STDERR: i32 = 2;

// Longer than the words of any error.
const REASON: usize = 300;

// A byte that could end the line, or do more to a terminal than show itself, is shown as a question mark.
fn add_shown<const N: usize>(line: &mut Line<N>, text: &[u8]) {
    for byte in text {
        line.byte(if byte.is_ascii_control() { b'?' } else { *byte });
    }
}

// What is wrong, and the argument with which it is.
pub fn print_named(sentence: &[u8], argument: &[u8]) {
    let mut line: Line<LONGEST> = Line::new();
    line.text(sentence);
    add_shown(&mut line, argument);
    line.print_line();
}

// The words of the error without the number that the library puts behind those of the system.
fn without_number(words: &[u8]) -> &[u8] {
    match words.iter().rposition(|byte| *byte == b'(') {
        Some(at) if 0 < at => &words[..at - 1],
        _ => words,
    }
}

// What the error says, or nothing where there is no room for that.
fn words_of(error: &Error) -> Line<REASON> {
    let mut words = Line::new();
    match write!(words, "{error}") {
        Ok(()) => words,
        Err(_) => Line::new(),
    }
}

fn print_reason(error: Error) {
    let words = words_of(&error);
    match error.raw_os_error() {
        Some(_) => io::write_all(STDERR, without_number(words.said())),
        None => io::write_all(STDERR, words.said()),
    };
}

// Says on standard error why a call failed, behind the name of its file: the reason is the system's, but for a name
// that no path can be.
pub fn say_reason(name: &[u8], error: Error) {
    let mut text: Line<NAME_ROOM> = Line::new();
    add_shown(&mut text, name);
    io::write_all(STDERR, text.said());
    io::write_all(STDERR, b": ");
    print_reason(error);
    io::write_all(STDERR, b"\n");
}
