// The catalogue of a file, the stretch of one SVID, and the file mended: all answers stand in one line.
ghost use Rattle.std.specs.Prelude.{◌≤◌};

use crate::file::{Line, MOST_BYTES, UNWRITTEN, add_fault, add_numbers, read_file};
use crate::mend_file::{BUFFER, add_mending};
use driving::digest::{of_bytes, of_halves, of_words};
use judging::Fault;
use rebuilding::{Rebuilt, read_catalogue};
use streams::finish::Stop;
use streams::input::read_bytes;
use stretches::stretch_of;

// The words of the whole array, of which the first are lent.
const RUN: usize = 440;

// What is lent as halves and words, before the call.
const UNWRITTEN_WORD: u32 = 0xEEEEEEEE;

const UNWRITTEN_HALF: u16 = 0xEEEE;

// What is refused has no counts.
fn add_rebuilt(line: &mut Line, rebuilt: Result<Rebuilt, Fault>) {
    match rebuilt {
        Ok(rebuilt) => add_numbers(
            line,
            &[0, rebuilt.at, rebuilt.extent, rebuilt.count, rebuilt.modes],
        ),
        Err(fault) => {
            add_fault(line, fault);
            line.text(b" 0 0 0");
        }
    }
}

// The catalogue's part of the line, and the digests of all that was lent, after the call.
fn add_catalogue(line: &mut Line, bytes: &[u8], words: usize)
    requires { words ≤ 440 }
{
    let mut identity = [UNWRITTEN_WORD; 6];
    let mut svids = [UNWRITTEN_HALF; 72];
    let mut modes = [UNWRITTEN; 72];
    let mut run = [UNWRITTEN_WORD; RUN];
    let rebuilt = read_catalogue(
        bytes,
        &mut svids,
        &mut modes,
        &mut identity,
        &mut run[..words],
    );
    add_rebuilt(line, rebuilt);
    line.words(&[
        of_words(&identity),
        of_halves(&svids),
        of_bytes(&modes),
        of_words(&run),
    ]);
}

// The stretch's part of the line.
fn add_stretch(line: &mut Line, bytes: &[u8], svid: u16) {
    line.text(b" stretch");
    match stretch_of(bytes, svid) {
        Ok(stretch) => {
            add_numbers(line, &[0, stretch.at]);
            line.bytes_or_nothing(stretch.part);
        }
        Err(fault) => {
            add_fault(line, fault);
            line.nothing();
        }
    }
}

// Reads the file and prints its line. Before the file stand the words that are lent, the SVID, the bytes that are lent
// and the file's length, which are read at once.
pub fn answer(number: u64) -> Result<(), Stop> {
    let [
        run,
        run_high,
        svid,
        svid_high,
        room,
        room_high,
        length,
        length_high,
    ] = read_bytes::<8>()?;
    let words = usize::from(u16::from_le_bytes([run, run_high]));
    let room = usize::from(u16::from_le_bytes([room, room_high]));
    let mut buffer = [0u8; MOST_BYTES];
    let bytes = read_file(u16::from_le_bytes([length, length_high]), &mut buffer)?;
    let mut line = Line::numbered(number, b" read");
    add_catalogue(&mut line, bytes, words.min(RUN));
    add_stretch(&mut line, bytes, u16::from_le_bytes([svid, svid_high]));
    add_mending(&mut line, bytes, room.min(BUFFER));
    line.print_line();
    Ok(())
}
