// A port written as numbers, where it is another than they stand for. Each part is written by itself: then the least lies on the stack.
ghost use Rattle.std.specs.Prelude.{◌≡◌, ◌≤◌};
ghost use Rattle.std.proofs.lemmas.List.Edits.{sets};
ghost use Rattle.laws.specs.Lent.{lent};
ghost use Rattle.taking.specs.Taking.{same_list};
ghost use Rattle.controller.specs.Port.{candidate_number, wait_numbers, held_numbers, own_numbers, port_from, port_numbers, numbers_after};

use crate::numbers::side_number;
use crate::port_same::{same_own, same_wait};
use crate::port_state::{own_from, wait_in};
use laptop::{Candidate, Size};
use messages::Request;
use port::{Own, Port, Side};

fn candidate_number(candidate: Candidate) -> u16
    ensures { result ≡ candidate_number candidate }
{
    match candidate {
        Candidate::Absent => 0,
        Candidate::Open => 1,
        Candidate::Done => 2,
    }
}

fn wait_numbers(wait: Option<(Side, Request)>) -> [u16; 4]
    ensures { result ≡ wait_numbers wait }
{
    match wait {
        None => [0, 0, 0, 0],
        Some((side, request)) => [
            u16::from(side_number(side)) + 1,
            request.svid,
            u16::from(request.command),
            u16::from(request.position),
        ],
    }
}

fn held_numbers(held: Option<Size>) -> [u16; 3]
    ensures { result ≡ held_numbers held }
{
    match held {
        None => [0, 0, 0],
        Some(size) => [1, u16::from(size.extent), u16::from(size.count)],
    }
}

fn put_wait(wait: Option<(Side, Request)>, state: &mut [u16; 22])
    ensures { state.new ≡ sets state.old 0 (wait_numbers wait) }
{
    state[..4].copy_from_slice(&wait_numbers(wait));
}

// A side's nine numbers begin at the place.
fn put_own(own: Own, at: usize, state: &mut [u16; 22])
    requires { at ≤ 13 }
    ensures { state.new ≡ sets state.old at (own_numbers own) }
{
    state[at] = candidate_number(own.candidate);
    state[at + 1] = u16::from(own.gathered.extent);
    state[at + 2] = u16::from(own.gathered.count);
    state[at + 3] = u16::from(own.stored);
    state[at + 4] = u16::from(own.pages);
    state[at + 5..at + 8].copy_from_slice(&held_numbers(own.held));
    state[at + 8] = u16::from(u8::from(own.edition));
}

// Cleared first: nothing is left of what stood there.
pub(crate) fn write_port(port: &Port, state: &mut [u16; 22])
    ensures { state.new ≡ port_numbers port.now }
{
    *state = [0; 22];
    put_wait(port.wait, state);
    put_own(port.partner, 4, state);
    put_own(port.cable, 13, state);
}

// Do the numbers stand for the port? A part of its callers, so that no port that is read lies on the stack.
#[inline(always)]
fn stands_for(state: &[u16; 22], port: &Port) -> bool
    ensures { result ≡ same_list (port_numbers (port_from state.now)) (port_numbers port.now) }
{
    same_wait(wait_in(state), port.wait)
        && same_own(own_from(state, 4), port.partner)
        && same_own(own_from(state, 13), port.cable)
}

// Writes a port's numbers where it is another than the lent ones stand for. It is a part of its caller: of two ports
// that stand beside each other the compiler then keeps what it needs.
#[inline(always)]
pub(crate) fn put_port_here(port: &Port, state: &mut [u16; 22])
    ensures { state.new ≡ numbers_after state.old port.now }
{
    if !stands_for(state, port) {
        write_port(port, state);
    }
}

// The same as a call of its own.
#[inline(never)]
pub(crate) fn put_port(port: &Port, state: &mut [u16; 22])
    ensures { state.new ≡ numbers_after state.old port.now }
{
    put_port_here(port, state);
}
