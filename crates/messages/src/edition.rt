// The editions of Structured VDMs, and the choice between two: document 02, R-5.
ghost use Rattle.std.specs.Prelude.{◌≡◌};
ghost use Rattle.std.specs.Option.{ok_or};
ghost use Rattle.messages.specs.declared.refusal.Refusal.TheVariants.{WrongShape};
ghost use Rattle.messages.specs.Editions.{edition_number, edition_named};
ghost use Rattle.messages.specs.Editions.{lower as Editions·lower};

use crate::Refusal;

#[derive(Clone, Copy, PartialEq, Eq)]
pub enum Edition {
    OneZero = 10,
    TwoZero = 20,
    TwoOne = 21,
}

// Our highest.
pub const OURS: Edition = Edition::TwoOne;

// 10, 20 or 21.
impl From<Edition> for u8 {
    ghost from_gives = { λ edition number. number ≡ edition_number edition };

    fn from(edition: Edition) -> u8 {
        edition as u8
    }
}

// The edition that a number names; a number that names none has the wrong shape.
impl TryFrom<u8> for Edition {
    type Error = Refusal;

    ghost try_from_gives = { λ number named. named ≡ ok_or (edition_named number) WrongShape };

    fn try_from(number: u8) -> Result<Edition, Refusal> {
        match number {
            10 => Ok(Edition::OneZero),
            20 => Ok(Edition::TwoZero),
            21 => Ok(Edition::TwoOne),
            _ => Err(Refusal::WrongShape),
        }
    }
}

pub fn lower(a: Edition, b: Edition) -> Edition
    ensures { result ≡ Editions·lower a b }
{
    if u8::from(a) <= u8::from(b) { a } else { b }
}
