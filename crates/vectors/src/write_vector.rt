// A write vector: what a header says, the number of an edition, the room for the output, the number of objects, then
// the objects.
use crate::Line;
use messages::{Head, Refusal};
use streams::finish::Stop;
use streams::input::{GREATEST, fill_words, read_bytes};

// What the output holds before the call, so that a reader sees which bytes were left alone.
const UNWRITTEN: u8 = 0x5A;

fn print_answer(number: u64, answer: Result<(), Refusal>, output: &[u8]) {
    let mut line = Line::numbered(number, b" write ");
    line.decimal(match answer {
        Ok(()) => 0,
        Err(refusal) => u64::from(u8::from(refusal)),
    });
    if !output.is_empty() {
        line.spaced_bytes(output);
    }
    line.print_line();
}

// Reads the vector and prints its line.
pub fn answer(number: u64) -> Result<(), Stop> {
    let [low, high, command, kind, position, edition, room, count] = read_bytes::<8>()?;
    let head = Head {
        svid: u16::from_le_bytes([low, high]),
        command,
        kind,
        position,
    };
    let mut words = [0u32; GREATEST];
    let objects = &mut words[..usize::from(count)];
    fill_words(objects)?;
    let mut buffer = [UNWRITTEN; GREATEST];
    let output = &mut buffer[..usize::from(room)];
    let answer = writing::write_numbered(edition, head, objects, output);
    print_answer(number, answer, output);
    Ok(())
}
