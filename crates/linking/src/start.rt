// What a far end begins with: the dock's data, its first page, whether the laptop end holds an old catalogue, and the
// dock's highest edition.
use crate::far_end::{FarEnd, Modes};
use crate::objects::{Objects, read_objects, read_some};
use dock::Dock;
use messages::Edition;
use pages::MOST_SVIDS;
use streams::input::{fill_halves, fill_words, read_bytes};

#[derive(Clone, Copy)]
pub struct Start {
    pub far_end: FarEnd,
    pub holds_old: bool,
}

// The identity and the SVIDs. The dock refuses data that breaks its limits.
fn read_dock() -> Option<Dock> {
    let mut identity = [0; 6];
    let identity = read_some(&mut identity, fill_words)?;
    let mut svids = [0; MOST_SVIDS];
    let svids = read_some(&mut svids, fill_halves)?;
    Some(loading::load(dock::fresh(), identity, svids).ok()?.dock)
}

// Of so many SVIDs. Each has a mode at least.
fn read_modes(count: u8) -> Option<Modes> {
    let mut modes = [Objects::none(); MOST_SVIDS];
    for each in modes.iter_mut().take(usize::from(count)) {
        *each = read_objects().filter(|objects| !objects.words().is_empty())?;
    }
    Some(modes)
}

// Behind the dock's data stand its modes, its page, 0 or 1 for what the laptop end holds, and the number of its highest
// edition. Nothing begins where any of it is cut or breaks a limit; these last three are read then too, behind what was
// read before, so that the other side's data begins there.
pub fn read_start() -> Option<Start> {
    let dock = read_dock();
    let modes = read_modes(dock.map_or(0, |dock| dock.count));
    let last = read_bytes::<3>();
    let (dock, modes) = (dock?, modes?);
    let [page, old, highest] = last.ok()?;
    let highest = Edition::try_from(highest).ok()?;
    if 1 < old {
        return None;
    }
    let mut ahead = FarEnd::new(dock, highest, modes);
    ahead.advance(page);
    Some(Start {
        far_end: FarEnd::new(ahead.dock, highest, modes),
        holds_old: old == 1,
    })
}
