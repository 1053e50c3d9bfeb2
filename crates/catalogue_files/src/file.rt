// What both kinds of question share: the file that is asked about, and the front of its line.
use judging::Fault;
use streams::finish::Stop;
use streams::input::fill;
use text::line;

// A longer file counts as one of so many bytes.
pub const MOST_BYTES: usize = 4096;

// The longest line: a number of seven digits, what is asked, fourteen fields of up to seven letters or four digits,
// five digests, and a stretch of 30 bytes.
const LONGEST: usize = 220;

// A line starts with the file's number and what is asked of it.
pub type Line = line::Line<LONGEST>;

// Each byte of what is lent is this before the call, so that a reader sees what was left alone.
pub const UNWRITTEN: u8 = 0xEE;

// Reads the file, of so many bytes.
pub fn read_file(length: u16, buffer: &mut [u8; MOST_BYTES]) -> Result<&[u8], Stop> {
    let bytes = &mut buffer[..usize::from(length).min(MOST_BYTES)];
    fill(bytes)?;
    Ok(bytes)
}

// Adds numbers with a space before each.
pub fn add_numbers(line: &mut Line, numbers: &[usize]) {
    for number in numbers {
        line.field(*number as u64);
    }
}

// Adds the refusal and the offset of a fault.
pub fn add_fault(line: &mut Line, fault: Fault) {
    line.field(u8::from(fault.refusal));
    add_numbers(line, &[fault.at]);
}
