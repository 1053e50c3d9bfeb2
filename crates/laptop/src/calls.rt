// What every call is made of: a refusal, a new state, a wait that ends, a candidate that is dropped.
ghost use Rattle.std.specs.Prelude.{◌≡◌, length, replicate};
ghost use Rattle.laptop.specs.State.{fresh_laptop};
ghost use Rattle.laptop.specs.State.{ended as State·ended};
ghost use Rattle.laptop.specs.State.{dropped as State·dropped};
ghost use Rattle.laptop.specs.Calls.{refused_by, accepted_with, short_runs};
ghost use Rattle.laptop.specs.Step.{stepped};
ghost use Rattle.messages.specs.Refusals.{number_of};

use crate::{Accepted, Candidate, Laptop, RUN_WORDS, Refused, Size, Told};
use messages::{OURS, Refusal};

// A laptop that awaits, gathers and holds nothing, and has entered no mode.
pub fn fresh(entered: &mut [u8; 72]) -> Laptop
    ensures { (result ≡ fresh_laptop) × (entered.new ≡ replicate 72 0) }
{
    *entered = [0u8; 72];
    Laptop {
        wait: None,
        candidate: Candidate::Absent,
        gathered: Size {
            extent: 0,
            count: 0,
        },
        stored: 0,
        pages: 0,
        held: None,
        edition: OURS,
    }
}

pub fn refuse(refusal: Refusal, laptop: Laptop) -> Result<Accepted, Refused>
    ensures { stepped result ≡ refused_by (number_of refusal) laptop }
{
    Err(Refused { refusal, laptop })
}

pub fn accept(told: Told, laptop: Laptop) -> Result<Accepted, Refused>
    ensures { stepped result ≡ accepted_with told laptop }
{
    Ok(Accepted {
        length: 0,
        told,
        laptop,
    })
}

pub fn ended(laptop: Laptop) -> Laptop
    ensures { result ≡ State·ended laptop }
{
    Laptop {
        wait: None,
        ..laptop
    }
}

// No candidate, and nothing is awaited.
pub fn dropped(laptop: Laptop) -> Laptop
    ensures { result ≡ State·dropped laptop }
{
    Laptop {
        wait: None,
        candidate: Candidate::Absent,
        ..laptop
    }
}

// The runs stay two parameters: any lengths may be lent, so a struct of them would have no invariant.
#[tactic(auto, unfolding(crate::specs::Calls::short_runs))]
pub fn short_runs(run: &[u32], held_run: &[u32]) -> bool
    ensures { result ≡ short_runs (length run.now) (length held_run.now) }
{
    run.len() < RUN_WORDS || held_run.len() < RUN_WORDS
}
