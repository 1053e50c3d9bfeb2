// Case 9: what a header reads as.
use crate::report::{add_named, add_objects, add_refused, begin_case};
use driving::line::Line;
use messages::Head;

const HEADER: u32 = 0xFF01A104;

fn add_head(line: &mut Line, head: Head) {
    line.text(b": SVID ");
    line.half(head.svid);
    add_named(line, b", command", head.command);
    add_named(line, b", type", head.kind);
    add_named(line, b", position", head.position);
}

pub fn print_reading() {
    let bytes = HEADER.to_le_bytes();
    let mut line = begin_case(9);
    add_objects(&mut line, &bytes);
    match reading::read(&bytes) {
        Ok(received) => add_head(&mut line, received.head),
        Err(refusal) => add_refused(&mut line, Err(refusal)),
    }
    line.print_line();
}
