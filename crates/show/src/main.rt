#![tactic(auto)]

// Shows a catalogue file to people: all of it, or the modes of one SVID. docs/CATALOGUE.md has the lines.
mod argument;
mod printing;
mod showing;

use argument::svid_asked;
use files::argument::{ROOM, argument, argument_count};
use files::input::{FRONT, read_named};
use files::naming::print_named;
use printing::print_usage;
use showing::show;

// The number of arguments, the program's own name among them, and which is which.
const WITHOUT_SVID: usize = 2;

const WITH_SVID: usize = 3;

const NAME: usize = 1;

const SVID: usize = 2;

// All of the catalogue, or the modes of one SVID.
fn show_file(rt: &HostRuntime, svid: Option<u16>) {
    let mut front = [0u8; FRONT];
    if let Some(bytes) = read_named(rt, NAME, &mut front) {
        show(bytes, svid);
    }
}

fn show_svid_of_file(rt: &HostRuntime) {
    let mut room = [0u8; ROOM];
    let text = argument(rt, SVID, &mut room);
    match svid_asked(text) {
        Some(svid) => show_file(rt, Some(svid)),
        None => print_named(b"not an SVID: ", text),
    }
}

fn main(rt: HostRuntime) {
    match argument_count(&rt) {
        WITHOUT_SVID => show_file(&rt, None),
        WITH_SVID => show_svid_of_file(&rt),
        _ => print_usage(),
    }
}
