#![tactic(auto)]

// Mends a catalogue file into another file, and reports what came out. docs/CATALOGUE.md has the lines.
mod mending_file;
mod names;
mod report;
mod saving;

use files::argument::{ROOM, argument, argument_count};
use files::input::{FRONT, read_named};
use mending_file::mend_into;
use names::is_file_name;
use report::{print_no_name, print_usage};

// The number of arguments, the program's own name among them, and which is which.
const WORDS: usize = 3;

const IN: usize = 1;

const OUT: usize = 2;

fn mend_file(rt: &HostRuntime, out: &[u8]) {
    let mut front = [0u8; FRONT];
    if let Some(bytes) = read_named(rt, IN, &mut front) {
        mend_into(rt, bytes, out);
    }
}

fn mend_named(rt: &HostRuntime) {
    let mut room = [0u8; ROOM];
    let out = argument(rt, OUT, &mut room);
    if is_file_name(out) {
        mend_file(rt, out);
    } else {
        print_no_name(out);
    }
}

fn main(rt: HostRuntime) {
    match argument_count(&rt) {
        WORDS => mend_named(&rt),
        _ => print_usage(),
    }
}
