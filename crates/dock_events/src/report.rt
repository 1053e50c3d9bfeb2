// The line that an event gets: its number, the dock's answer, the output buffer and where the dock
// stands then.
use crate::event::Answer;
use dock::{Dock, Standing};
use text::line::Line;

// The longest line: a number of seven digits, a refusal and a length of three digits, 255 bytes of
// two digits each, "sending", a page and a count of three digits, an edition, a space before each
// but the first, and the line end.
const LONGEST: usize = 547;

// The refusal, or 0, and how many bytes are to be sent.
fn add_answer(line: &mut Line<LONGEST>, answer: Answer) {
    match answer {
        Ok(accepted) => {
            line.text(b" 0");
            line.field(accepted.length);
        }
        Err(refusal) => {
            line.field(u8::from(refusal));
            line.text(b" 0");
        }
    }
}

fn add_dock(line: &mut Line<LONGEST>, dock: Dock) {
    match dock.standing {
        Standing::Ready => line.text(b" ready"),
        Standing::Asking(_) => line.text(b" asking"),
        Standing::Sending(_) => line.text(b" sending"),
    }
    line.field(dock.page);
    line.field(dock.count);
    line.edition(u8::from(dock.edition));
}

// The dock is as the event leaves it.
pub fn print_event(number: u64, answer: Answer, dock: Dock, output: &[u8]) {
    let mut line = Line::new();
    line.decimal(number);
    add_answer(&mut line, answer);
    line.bytes_or_nothing(output);
    add_dock(&mut line, dock);
    line.print_line();
}
