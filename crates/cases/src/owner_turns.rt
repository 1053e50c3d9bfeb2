// The turns of the laptop end's owner, all on the partner's side: it asks what it needs next, and hears an answer.
use crate::written::{LONGEST, Message};
use driving::owning::{Owner, outcome_of};
use events::Call;
use laptop::Laptop;
use messages::Refusal;
use port::Side;

// What a call gave, and the request to send.
#[derive(Clone, Copy)]
pub struct Turn {
    pub outcome: Result<(), Refusal>,
    pub request: Message,
}

// The laptop of document 01.
pub fn laptop_of(owner: &Owner) -> Laptop {
    owner.laptop(Side::Partner)
}

pub fn next(owner: &mut Owner) -> Turn {
    let mut bytes = [0; LONGEST];
    match owner.make(Side::Partner, Call::Next, &mut bytes) {
        Ok(accepted) => Turn {
            outcome: Ok(()),
            request: Message::new(bytes, usize::from(accepted.length)),
        },
        Err(refused) => Turn {
            outcome: Err(refused.refusal),
            request: Message::nothing(),
        },
    }
}

pub fn hear(owner: &mut Owner, message: Message) -> Turn {
    Turn {
        outcome: outcome_of(owner.hear(Side::Partner, message.bytes())),
        request: Message::nothing(),
    }
}
