// A word behind the program's name.
use std::env::FillError;
use std::rt::Env;

// The longest path of the system, and the zero behind it. An argument that fills the room is longer than the name of
// any file.
pub const ROOM: usize = 4096;

// How many words the command line has, the program's own name among them.
pub fn argument_count(rt: &HostRuntime) -> usize {
    let mut first = [0u8; 1];
    for index in 0..usize::MAX {
        if let Err(FillError::NotPresent) = rt.arg(index, &mut first) {
            return index;
        }
    }
    usize::MAX
}

// Puts the argument at the start of the room and answers it; one that is too long is cut, and fills the room.
pub fn argument<'a>(rt: &HostRuntime, index: usize, room: &'a mut [u8]) -> &'a [u8] {
    match rt.arg(index, room) {
        Ok(length) => &room[..length],
        Err(FillError::TooLong) => room,
        Err(FillError::NotPresent) => &[],
    }
}
