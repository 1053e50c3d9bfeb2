// The bytes of a file mended, saved and reported: nothing is printed of what came out before it is saved.
use crate::report::{print_partial, print_sound, print_unwritten};
use crate::saving::{Unsaved, save};
use files::naming::NAME_ROOM;
use files::verdict::print_refused;
use mending::{Mended, mend_catalogue};
use messages::first;
use text::line::Line;

// The longest sound file: six identity objects, and 72 SVIDs of six modes.
const LONGEST: usize = 2402;

// Saves the bytes in the file OUT with an ending behind its name, or says that it cannot.
fn save_as(rt: &HostRuntime, out: &[u8], ending: &[u8], bytes: &[u8]) -> Result<(), Unsaved> {
    let mut name: Line<NAME_ROOM> = Line::new();
    name.text(out);
    name.text(ending);
    let saved = save(rt, name.said(), bytes);
    if saved.is_err() {
        print_unwritten(out);
    }
    saved
}

// What is mended goes into OUT where the file was sound, and never otherwise.
pub fn mend_into(rt: &HostRuntime, bytes: &[u8], out: &[u8]) {
    let mut buffer = [0u8; LONGEST];
    match mend_catalogue(bytes, &mut buffer) {
        Ok(Mended::Sound(kept)) => {
            if save_as(rt, out, b"", first(&buffer, kept.length)).is_ok() {
                print_sound();
            }
        }
        Ok(Mended::Partial(fault, kept)) => {
            if save_as(rt, out, b".partial", first(&buffer, kept.length)).is_ok() {
                print_partial(fault, kept);
            }
        }
        Err(refusal) => print_refused(refusal),
    }
}
