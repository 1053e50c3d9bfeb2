// A laptop end that holds an old catalogue before the first event.
use crate::event::Event;
use crate::joined::Joined;
use dock::Dock;
use driving::owning::Owner;
use events::Call;
use linking::far_end::FarEnd;
use linking::objects::Objects;
use messages::OURS;
use pages::MOST_SVIDS;
use port::Side;

// The other dock's data: three identity objects, an SVID and its mode. Its highest edition is ours.
const OLD_SVID: u16 = 0x1234;

const OLD_MODE: u32 = 0x55;

// Without losses, the laptop asks for the identity, the SVIDs and the modes.
const EXCHANGES: usize = 3;

fn old_dock() -> Dock {
    loading::load(dock::fresh(), &[1, 2, 3], &[OLD_SVID]).map_or(
        dock::fresh(),
        |accepted| accepted.dock,
    )
}

fn exchange(joined: &mut Joined<'_>) {
    joined.take(Event::Call(Call::Next));
    joined.take(Event::Linked(linking::Event::RequestReaches));
    joined.take(Event::Linked(linking::Event::Give));
    joined.take(Event::Linked(linking::Event::AnswerArrives));
    joined.take(Event::Linked(linking::Event::Sent));
}

// The side gathers from the other dock.
pub fn gather_old(owner: &mut Owner, side: Side) {
    let modes = [Objects::of(OLD_MODE, 1); MOST_SVIDS];
    let mut far_end = FarEnd::new(old_dock(), OURS, modes);
    let mut joined = Joined::new(owner, &mut far_end, side);
    for _ in 0..EXCHANGES {
        exchange(&mut joined);
    }
}
