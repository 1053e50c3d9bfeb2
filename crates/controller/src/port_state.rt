// The laptop end's state as 22 numbers. What is awaited comes first: 0 nothing, 1 an answer of the partner, 2 one of the cable, with its SVID, command and
// position. Then nine of the partner and nine of the cable: the candidate (0 none, 1 its list is open, 2 its list is done); its identity objects, its
// SVIDs, and how many of them have their modes; the pages counted; what is held (0 nothing, 1 a catalogue) with its identity objects and its SVIDs; the
// edition of what is sent (10, 20 or 21).
ghost use Rattle.std.specs.Prelude.{◌≡◌, ◌≤◌};
ghost use Rattle.laws.specs.Lent.{lent};
ghost use Rattle.controller.specs.Port.{size_from, wait_from, candidate_from, held_from, wait_in, own_from, port_from};

use crate::numbers::{edition_from, low_byte, request_from};
use laptop::{Candidate, Size};
use messages::Request;
use port::{Own, Port, Side};

fn size_from(extent: u16, count: u16) -> Size
    ensures { result ≡ size_from extent count }
{
    Size {
        extent: low_byte(extent),
        count: low_byte(count),
    }
}

fn wait_from(tag: u16, request: Request) -> Option<(Side, Request)>
    ensures { result ≡ wait_from tag request }
{
    match tag {
        1 => Some((Side::Partner, request)),
        2 => Some((Side::Cable, request)),
        _ => None,
    }
}

fn candidate_from(tag: u16) -> Candidate
    ensures { result ≡ candidate_from tag }
{
    match tag {
        1 => Candidate::Open,
        2 => Candidate::Done,
        _ => Candidate::Absent,
    }
}

fn held_from(tag: u16, size: Size) -> Option<Size>
    ensures { result ≡ held_from tag size }
{
    if tag == 1 { Some(size) } else { None }
}

// A side's nine numbers begin at the place.
pub(crate) fn own_from(state: &[u16; 22], at: usize) -> Own
    requires { at ≤ 13 }
    ensures { result ≡ own_from state.now at }
{
    Own {
        candidate: candidate_from(state[at]),
        gathered: size_from(state[at + 1], state[at + 2]),
        stored: low_byte(state[at + 3]),
        pages: low_byte(state[at + 4]),
        held: held_from(state[at + 5], size_from(state[at + 6], state[at + 7])),
        edition: edition_from(state[at + 8]),
    }
}

pub(crate) fn wait_in(state: &[u16; 22]) -> Option<(Side, Request)>
    ensures { result ≡ wait_in state.now }
{
    wait_from(state[0], request_from(state[1], state[2], state[3]))
}

// A part of its callers: as a call of its own it costs `laptop_message` sixteen bytes of stack.
#[inline(always)]
pub(crate) fn port_from(state: &[u16; 22]) -> Port
    ensures { result ≡ port_from state.now }
{
    Port {
        wait: wait_in(state),
        partner: own_from(state, 4),
        cable: own_from(state, 13),
    }
}
