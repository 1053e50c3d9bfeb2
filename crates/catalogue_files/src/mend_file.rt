// A file mended into a second buffer, of which the first bytes are lent.
ghost use Rattle.std.specs.Prelude.{◌≤◌};

use crate::file::{Line, UNWRITTEN, add_fault, add_numbers};
use driving::digest::of_bytes;
use mending::{Kept, Mended, mend_catalogue};
use messages::Refusal;

// The bytes of the whole buffer.
pub const BUFFER: usize = 2410;

fn add_kept(line: &mut Line, kept: Kept) {
    add_numbers(line, &[kept.svids, kept.modes, kept.length]);
}

fn add_mended(line: &mut Line, mended: Result<Mended, Refusal>) {
    match mended {
        Ok(Mended::Sound(kept)) => {
            line.text(b" 0 sound 0 0");
            add_kept(line, kept);
        }
        Ok(Mended::Partial(fault, kept)) => {
            line.text(b" 0 partial");
            add_fault(line, fault);
            add_kept(line, kept);
        }
        Err(refusal) => {
            line.field(u8::from(refusal));
            line.text(b" - 0 0 0 0 0");
        }
    }
}

// The mending's part of the line: what came out, and the digest of the whole buffer after the call.
pub(crate) fn add_mending(line: &mut Line, bytes: &[u8], room: usize)
    requires { room ≤ 2410 }
{
    let mut buffer = [UNWRITTEN; BUFFER];
    let mended = mend_catalogue(bytes, &mut buffer[..room]);
    line.text(b" mend");
    add_mended(line, mended);
    line.spaced_word(of_bytes(&buffer));
}
