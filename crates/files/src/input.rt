// The front of a file or of standard input, with a read that fails told from the end.
use crate::argument::{ROOM, argument};
use crate::naming::print_named;
use crate::path::path_of;
use std::fs::File;
use std::io::{Error, Read};

// How much of a file is read: what lies behind these bytes cannot change what is found, nor what is mended, proved as
// `front_decides` in crates/catalogue_laws/proofs/Front.antt and `front_mended` in crates/mending/proofs/Laws.antt.
pub const FRONT: usize = 2426;

// The bytes that were read, fewer than there is room for only where the input ended. A read gives as many bytes as
// come, so no `for` knows its steps.
fn read_front<'a, R: Read>(reader: &mut R, front: &'a mut [u8]) -> Result<&'a [u8], Error> {
    let mut end = 0;
    while end < front.len() {
        let more = reader.read(&mut front[end..])?;
        if more == 0 {
            break;
        }
        end += more;
    }
    Ok(&front[..end])
}

// The name that stands for standard input.
pub fn is_dash(name: &[u8]) -> bool {
    name == b"-".as_slice()
}

fn read_front_of<'a>(
    rt: &HostRuntime,
    name: &[u8],
    front: &'a mut [u8],
) -> Result<&'a [u8], Error> {
    if is_dash(name) {
        read_front(&mut rt.stdin(), front)
    } else {
        read_front(&mut File::open(rt, path_of(name)?)?, front)
    }
}

// The front of the file that an argument names. A line says where it cannot be read.
pub fn read_named<'a>(rt: &HostRuntime, index: usize, front: &'a mut [u8]) -> Option<&'a [u8]> {
    let mut room = [0u8; ROOM];
    let name = argument(rt, index, &mut room);
    match read_front_of(rt, name, front) {
        Ok(bytes) => Some(bytes),
        Err(_) => {
            print_named(b"cannot read ", name);
            None
        }
    }
}
