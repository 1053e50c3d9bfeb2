// A read vector: the length of a message, then its bytes.
use crate::Line;
use messages::{Received, Refusal, first};
use streams::finish::Stop;
use streams::input::{GREATEST, fill, read_byte};

fn add_received(line: &mut Line, received: Received) {
    let head = received.head;
    line.byte(b'0');
    line.edition(u8::from(received.edition));
    line.byte(b' ');
    line.half(head.svid);
    line.field(head.command);
    line.field(head.kind);
    line.field(head.position);
    line.words(first(&received.objects, usize::from(received.count)));
}

fn print_answer(number: u64, answer: Result<Received, Refusal>) {
    let mut line = Line::numbered(number, b" read ");
    match answer {
        Ok(received) => add_received(&mut line, received),
        Err(refusal) => line.decimal(u64::from(u8::from(refusal))),
    }
    line.print_line();
}

// Reads the vector and prints its line.
pub fn answer(number: u64) -> Result<(), Stop> {
    let length = read_byte().ok_or(Stop::Cut)?;
    let mut buffer = [0u8; GREATEST];
    let message = &mut buffer[..usize::from(length)];
    fill(message)?;
    print_answer(number, reading::read(message));
    Ok(())
}
