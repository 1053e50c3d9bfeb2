#![tactic(auto)]

// Timers and the protocol error: document 01, "The laptop end". The state is that of `laptop`.
ghost use Rattle.std.specs.Prelude.{◌≡◌};
ghost use Rattle.laptop.specs.Calls.{step_of};
ghost use Rattle.laptop.specs.Step.{stepped};
ghost use Rattle.timers.specs.Timers.{decide_timer, decide_error};
ghost use Rattle.timers.specs.Timers.{over as Timers·over};

use laptop::{Accepted, Laptop, Refused, Told, accept, dropped, ended, refuse};
use messages::{ENTER, EXIT, IDENTITY, MODES, Refusal, Request};

// The wait is over without an answer: Identity leaves no candidate, and policy is told of enter and exit.
#[tactic(auto, unfolding(crate::specs::Timers::over, laptop::specs::Calls::step_of))]
fn over(laptop: Laptop, request: Request, told: Told) -> Result<Accepted, Refused>
    ensures { stepped result ≡ step_of laptop (Timers·over laptop request told) 0 }
{
    if request.command == IDENTITY {
        accept(Told::Nothing, dropped(laptop))
    } else if request.command < ENTER {
        accept(Told::Nothing, ended(laptop))
    } else {
        accept(told, ended(laptop))
    }
}

// The timer of the commands from first to last.
#[tactic(auto, unfolding(crate::specs::Timers::decide_timer, laptop::specs::Calls::step_of))]
fn timer(laptop: Laptop, first: u8, last: u8) -> Result<Accepted, Refused>
    ensures { stepped result ≡ step_of laptop (decide_timer first last laptop laptop.wait) 0 }
{
    match laptop.wait {
        Some(request) if (first..=last).contains(&request.command) => {
            over(laptop, request, Told::Timer(request))
        }
        _ => refuse(Refusal::NotNow, laptop),
    }
}

// A call for each timer, as the C interface has them.
pub fn response_timer(laptop: Laptop) -> Result<Accepted, Refused>
    ensures { stepped result ≡ step_of laptop (decide_timer 1 3 laptop laptop.wait) 0 }
{
    timer(laptop, IDENTITY, MODES)
}

pub fn entry_timer(laptop: Laptop) -> Result<Accepted, Refused>
    ensures { stepped result ≡ step_of laptop (decide_timer 4 4 laptop laptop.wait) 0 }
{
    timer(laptop, ENTER, ENTER)
}

pub fn exit_timer(laptop: Laptop) -> Result<Accepted, Refused>
    ensures { stepped result ≡ step_of laptop (decide_timer 5 5 laptop laptop.wait) 0 }
{
    timer(laptop, EXIT, EXIT)
}

#[tactic(auto, unfolding(crate::specs::Timers::decide_error, laptop::specs::Calls::step_of))]
pub fn protocol_error(laptop: Laptop) -> Result<Accepted, Refused>
    ensures { stepped result ≡ step_of laptop (decide_error laptop laptop.wait) 0 }
{
    match laptop.wait {
        Some(request) => over(laptop, request, Told::ProtocolError(request)),
        None => refuse(Refusal::NotNow, laptop),
    }
}
