// What is shown of a file: it is judged whole before the first line is printed.
use crate::printing::{print_identity, print_svid};
use files::verdict::{print_counts, print_fault, print_refused};
use laptop::RUN_WORDS;
use messages::first;
use rebuilding::{Rebuilt, read_catalogue};
use stretches::stretch_of;

const MOST_SVIDS: usize = 72;

const MOST_OBJECTS: usize = 6;

fn show_all(
    bytes: &[u8],
    rebuilt: Rebuilt,
    identity: &[u32; MOST_OBJECTS],
    svids: &[u16; MOST_SVIDS],
) {
    print_identity(first(identity, rebuilt.extent));
    for svid in first(svids, rebuilt.count) {
        // Each has its stretch, since the file is sound: testing it spares the proof.
        if let Ok(stretch) = stretch_of(bytes, *svid) {
            print_svid(*svid, stretch.part);
        }
    }
    print_counts(b"sound, ", rebuilt.count, rebuilt.modes);
}

// The SVID with its modes, or that the file lacks it.
fn show_one(bytes: &[u8], rebuilt: Rebuilt, svid: u16) {
    match stretch_of(bytes, svid) {
        Ok(stretch) => {
            print_svid(svid, stretch.part);
            print_counts(b"sound, ", rebuilt.count, rebuilt.modes);
        }
        Err(fault) => print_refused(fault.refusal),
    }
}

// All of the file, or the modes of one SVID.
pub fn show(bytes: &[u8], svid: Option<u16>) {
    let mut identity = [0u32; MOST_OBJECTS];
    let mut svids = [0u16; MOST_SVIDS];
    let mut modes = [0u8; MOST_SVIDS];
    let mut run = [0u32; RUN_WORDS];
    match read_catalogue(bytes, &mut svids, &mut modes, &mut identity, &mut run) {
        Ok(rebuilt) => match svid {
            Some(svid) => show_one(bytes, rebuilt, svid),
            None => show_all(bytes, rebuilt, &identity, &svids),
        },
        Err(fault) => print_fault(b"refused ", fault.refusal, fault.at),
    }
}
