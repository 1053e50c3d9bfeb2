// Timers and the protocol error: those of document 01 on the side that waits.
ghost use Rattle.std.specs.Prelude.{◌≡◌};
ghost use Rattle.laptop.specs.Step.{stepped as Laptop·stepped};
ghost use Rattle.timers.specs.Timers.{decide_timer, decide_error};
ghost use Rattle.port.specs.Calls.{waiting_side, concerning};
ghost use Rattle.port.specs.Sides.{stepped_on as Sides·stepped_on};
ghost use Rattle.port.specs.Sides.{seen as Sides·seen};
ghost use Rattle.port.specs.Step.{stepped};

use crate::sides::{given_on, seen};
use crate::{Accepted, Port, Refused, Side};
use laptop::Laptop;

// The partner where none waits: it awaits nothing then, and refuses.
fn waiting_side(port: Port) -> Side
    ensures { result ≡ waiting_side port.wait }
{
    match port.wait {
        Some((side, _)) => side,
        None => Side::Partner,
    }
}

// A call of document 01, made of the laptop that the waiting side sees.
fn concerning<F: FnOnce(Laptop) -> Result<laptop::Accepted, laptop::Refused>>(
    port: Port,
    call: F,
) -> Result<Accepted, Refused>
    requires { F.pre call (Sides·seen (waiting_side port.wait) port) }
    ensures { (given : _) × F.post call (Sides·seen (waiting_side port.wait) port) given
        × (stepped result ≡ Sides·stepped_on (waiting_side port.wait) port (Laptop·stepped given)) }
{
    let side = waiting_side(port);
    given_on(side, port, call(seen(side, port)))
}

// A call for each timer, as the C interface has them.
pub fn response_timer(port: Port) -> Result<Accepted, Refused>
    ensures { stepped result ≡ concerning (λ l. decide_timer 1 3 l l.wait) port }
{
    concerning(port, timers::response_timer)
}

pub fn entry_timer(port: Port) -> Result<Accepted, Refused>
    ensures { stepped result ≡ concerning (λ l. decide_timer 4 4 l l.wait) port }
{
    concerning(port, timers::entry_timer)
}

pub fn exit_timer(port: Port) -> Result<Accepted, Refused>
    ensures { stepped result ≡ concerning (λ l. decide_timer 5 5 l l.wait) port }
{
    concerning(port, timers::exit_timer)
}

pub fn protocol_error(port: Port) -> Result<Accepted, Refused>
    ensures { stepped result ≡ concerning (λ l. decide_error l l.wait) port }
{
    concerning(port, timers::protocol_error)
}
