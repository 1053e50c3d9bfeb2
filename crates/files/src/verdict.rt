// Lines about a catalogue file.
use text::line::Line;

// The longest word before two numbers of up to 20 digits, what stands between and behind these, and the line end.
const LONGEST: usize = 63;

// A line of these words and the number.
fn numbered(words: &[u8], number: u64) -> Line<LONGEST> {
    let mut line = Line::new();
    line.text(words);
    line.decimal(number);
    line
}

// A refusal, or its number, that stands at no place in the file.
pub fn print_refused<N: Into<u8>>(refusal: N) {
    numbered(b"refused ", u64::from(refusal.into())).print_line();
}

// A file's first fault, behind what became of the file.
pub fn print_fault<N: Into<u8>>(words: &[u8], refusal: N, offset: usize) {
    let mut line = numbered(words, u64::from(refusal.into()));
    line.text(b" at offset ");
    line.decimal(offset as u64);
    line.print_line();
}

// How many SVIDs and modes, behind what is said of them.
pub fn print_counts(words: &[u8], svids: usize, modes: usize) {
    let mut line = numbered(words, svids as u64);
    line.text(b" SVIDs, ");
    line.decimal(modes as u64);
    line.text(b" modes");
    line.print_line();
}
