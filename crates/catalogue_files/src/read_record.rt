// The record at an offset of a file.
use crate::file::{Line, MOST_BYTES, add_numbers, read_file};
use records::{Missing, Record, Whole, fault_of, record_from};
use streams::finish::Stop;
use streams::input::read_bytes;

fn add_record(line: &mut Line, record: Record) {
    match record {
        Record::Identity(objects) => {
            line.text(b" identity");
            line.field(objects);
        }
        Record::Svid(svid) => {
            line.text(b" svid ");
            line.half(svid);
        }
        Record::Mode(word) => {
            line.text(b" mode");
            line.spaced_word(word);
        }
        Record::End => line.text(b" end"),
    }
}

// A whole record has the offset behind it. It is no long one, and a sum that may wrap spares the proof of that.
fn add_found(line: &mut Line, found: Result<Whole, Missing>, offset: usize) {
    match found {
        Ok(whole) => {
            add_record(line, whole.record);
            add_numbers(line, &[offset.wrapping_add(whole.length)]);
        }
        Err(Missing::Nothing) => line.text(b" nothing"),
        Err(_) => line.field(fault_of(found)),
    }
}

// Reads the file and prints its line. Before the file stand the offset and the file's length, which are read at once.
pub fn answer(number: u64) -> Result<(), Stop> {
    let [offset, offset_high, length, length_high] = read_bytes::<4>()?;
    let offset = usize::from(u16::from_le_bytes([offset, offset_high]));
    let mut buffer = [0u8; MOST_BYTES];
    let bytes = read_file(u16::from_le_bytes([length, length_high]), &mut buffer)?;
    let mut line = Line::numbered(number, b" record");
    add_found(&mut line, record_from(bytes, offset), offset);
    line.print_line();
    Ok(())
}
