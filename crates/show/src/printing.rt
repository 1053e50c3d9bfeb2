// The lines of a sound file.
use records::{Record, Whole, record_from};
use streams::finish::STDOUT;
use text::line::Line;

// "identity", six words of a space and eight digits each, and the line end.
const LONGEST: usize = 63;

// A mode's record is its kind and a word.
const MODE_RECORD: usize = 5;

pub fn print_usage() {
    io::write_all(STDOUT, b"usage: show FILE [SVID]\n");
}

pub fn print_identity(objects: &[u32]) {
    let mut line: Line<LONGEST> = Line::new();
    line.text(b"identity");
    line.words(objects);
    line.print_line();
}

// The words of a stretch of mode records.
pub fn print_svid(svid: u16, stretch: &[u8]) {
    let mut line: Line<LONGEST> = Line::new();
    line.half(svid);
    for bytes in stretch.chunks_exact(MODE_RECORD) {
        if let Ok(
            Whole {
                record: Record::Mode(word),
                ..
            },
        ) = record_from(bytes, 0)
        {
            line.spaced_word(word);
        }
    }
    line.print_line();
}
