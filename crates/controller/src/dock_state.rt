// The dock's state: its identity objects and its SVIDs in arrays, and eight numbers: how many objects, how many SVIDs and the present page; where
// it stands (0 ready, 1 asking, 2 sending an answer, 3 sending a page), with the SVID, command and position of the request it asks for; the edition
// at which it answers (10, 20 or 21).
ghost use Rattle.std.specs.Prelude.{◌≡◌};
ghost use Rattle.laws.specs.Lent.{accepted};
ghost use Rattle.dock.specs.Step.{stepped};
ghost use Rattle.controller.specs.Dock.{standing_from, dock_from, standing_numbers, dock_numbers};

use crate::numbers::{edition_from, low_byte, request_from};
use dock::{Accepted, Dock, Standing};
use messages::{Refusal, Request};

fn standing_from(tag: u16, request: Request) -> Standing
    ensures { result ≡ standing_from tag request }
{
    match tag {
        1 => Standing::Asking(request),
        2 => Standing::Sending(false),
        3 => Standing::Sending(true),
        _ => Standing::Ready,
    }
}

pub(crate) fn dock_from(state: &[u16; 8], identity: &[u32; 6], svids: &[u16; 72]) -> Dock
    ensures { result ≡ dock_from state.now identity.now svids.now }
{
    Dock {
        identity: *identity,
        extent: low_byte(state[0]),
        svids: *svids,
        count: low_byte(state[1]),
        page: low_byte(state[2]),
        standing: standing_from(state[3], request_from(state[4], state[5], state[6])),
        edition: edition_from(state[7]),
    }
}

fn standing_numbers(standing: Standing) -> [u16; 4]
    ensures { result ≡ standing_numbers standing }
{
    match standing {
        Standing::Ready => [0, 0, 0, 0],
        Standing::Asking(request) => [
            1,
            request.svid,
            u16::from(request.command),
            u16::from(request.position),
        ],
        Standing::Sending(false) => [2, 0, 0, 0],
        Standing::Sending(true) => [3, 0, 0, 0],
    }
}

// One by one, in the order of the C interface.
pub(crate) fn dock_numbers(dock: Dock) -> [u16; 8]
    ensures { result ≡ dock_numbers dock }
{
    let standing = standing_numbers(dock.standing);
    [
        u16::from(dock.extent),
        u16::from(dock.count),
        u16::from(dock.page),
        standing[0],
        standing[1],
        standing[2],
        standing[3],
        u16::from(u8::from(dock.edition)),
    ]
}

// On acceptance writes the new state and the number of bytes to send into what was lent; gives the refusal number.
pub(crate) fn hand_over(
    given: Result<Accepted, Refusal>,
    state: &mut [u16; 8],
    length: &mut u8,
) -> u8
    ensures { (dock : _) → (result ≡ (stepped dock given).refusal)
        × (state.new ≡ accepted result (dock_numbers (stepped dock given).dock) state.old)
        × (length.new ≡ accepted result (stepped dock given).length length.old) }
{
    match given {
        Ok(accepted) => {
            *state = dock_numbers(accepted.dock);
            *length = accepted.length;
            0
        }
        Err(refusal) => u8::from(refusal),
    }
}
