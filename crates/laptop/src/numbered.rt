// What a call gives back, by its numbers. For callers outside that have a refusal as a number: no crate here calls
// these.
ghost use Rattle.std.specs.Prelude.{◌≡◌};
ghost use Rattle.laptop.specs.Calls.{refused_by, accepted_with};

use crate::{Laptop, Step, Told};

impl Step {
    pub fn refused(number: u8, laptop: Laptop) -> Step
        ensures { result ≡ refused_by number laptop }
    {
        Step {
            refusal: number,
            length: 0,
            told: Told::Nothing,
            laptop,
        }
    }

    pub fn accepted(told: Told, laptop: Laptop) -> Step
        ensures { result ≡ accepted_with told laptop }
    {
        Step {
            refusal: 0,
            length: 0,
            told,
            laptop,
        }
    }
}
