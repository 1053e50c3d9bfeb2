// The laptop that a side sees, and its result put back.
ghost use Rattle.std.specs.Prelude.{◌≡◌};
ghost use Rattle.laptop.specs.Step.{stepped as Laptop·stepped};
ghost use Rattle.port.specs.Sides.{is_others, wait_seen, wait_put, own_of, own_in, put_back};
ghost use Rattle.port.specs.Sides.{seen as Sides·seen};
ghost use Rattle.port.specs.Sides.{stepped_on as Sides·stepped_on};
ghost use Rattle.port.specs.Step.{stepped};

use crate::{Accepted, Own, Port, Refused, Side, Step};
use laptop::Laptop;
use messages::Request;

// Is the other side's answer awaited?
fn is_others(side: Side, wait: Option<(Side, Request)>) -> bool
    ensures { result ≡ is_others side wait }
{
    match wait {
        Some((named, _)) => named != side,
        None => false,
    }
}

// What the other side awaits is nothing to a side.
fn wait_seen(side: Side, wait: Option<(Side, Request)>) -> Option<Request>
    ensures { result ≡ wait_seen side wait }
{
    match wait {
        Some((named, request)) if named == side => Some(request),
        _ => None,
    }
}

// What a side awaits afterwards; what the other awaits stays.
fn wait_put(
    side: Side,
    after: Option<Request>,
    before: Option<(Side, Request)>,
) -> Option<(Side, Request)>
    ensures { result ≡ wait_put side after before }
{
    if is_others(side, before) {
        return before;
    }
    after.map(|request| (side, request))
}

fn own_of(side: Side, port: Port) -> Own
    ensures { result ≡ own_of side port }
{
    match side {
        Side::Partner => port.partner,
        Side::Cable => port.cable,
    }
}

// No From: `seen`, the way back, is made of two values, and so the two stay alike.
pub(crate) fn own_in(laptop: Laptop) -> Own
    ensures { result ≡ own_in laptop }
{
    Own {
        candidate: laptop.candidate,
        gathered: laptop.gathered,
        stored: laptop.stored,
        pages: laptop.pages,
        held: laptop.held,
        edition: laptop.edition,
    }
}

// The laptop of document 01 that a side sees.
pub fn seen(side: Side, port: Port) -> Laptop
    ensures { result ≡ Sides·seen side port }
{
    let own = own_of(side, port);
    Laptop {
        wait: wait_seen(side, port.wait),
        candidate: own.candidate,
        gathered: own.gathered,
        stored: own.stored,
        pages: own.pages,
        held: own.held,
        edition: own.edition,
    }
}

// The port once a side's laptop has become this one: nothing of the other side changes.
fn put_back(side: Side, laptop: Laptop, port: Port) -> Port
    ensures { result ≡ put_back side laptop port }
{
    let wait = wait_put(side, laptop.wait, port.wait);
    let own = own_in(laptop);
    match side {
        Side::Partner => Port {
            wait,
            partner: own,
            ..port
        },
        Side::Cable => Port {
            wait,
            cable: own,
            ..port
        },
    }
}

fn laptop_in(given: Result<laptop::Accepted, laptop::Refused>) -> Laptop
    ensures { result ≡ (Laptop·stepped given).laptop }
{
    match given {
        Ok(accepted) => accepted.laptop,
        Err(refused) => refused.laptop,
    }
}

// What a call of document 01 on a side gave, as the port's. A part of its callers, and the laptop is put back at one
// place: else it costs them 238 bytes of stack.
#[inline(always)]
pub fn given_on(
    side: Side,
    port: Port,
    given: Result<laptop::Accepted, laptop::Refused>,
) -> Result<Accepted, Refused>
    ensures { stepped result ≡ Sides·stepped_on side port (Laptop·stepped given) }
{
    let port = put_back(side, laptop_in(given), port);
    match given {
        Ok(accepted) => Ok(Accepted {
            length: accepted.length,
            told: accepted.told,
            side,
            port,
        }),
        Err(refused) => Err(Refused {
            refusal: refused.refusal,
            side,
            port,
        }),
    }
}

// The same by its numbers, whatever these are. For callers outside that have them: no crate here calls this.
pub fn stepped_on(side: Side, port: Port, step: laptop::Step) -> Step
    ensures { result ≡ Sides·stepped_on side port step }
{
    Step {
        refusal: step.refusal,
        length: step.length,
        told: step.told,
        side,
        port: put_back(side, step.laptop, port),
    }
}
