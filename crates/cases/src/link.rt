// Both ends, joined by hand: what one sends is given to the other.
use crate::owner_turns::{hear, laptop_of, next};
use crate::responder::{after, load, reply};
use crate::written::Message;
use dock::{Dock, Policy};
use driving::owning::Owner;
use laptop::Candidate;
use messages::Refusal;

// A proved loop has to end. No case has so many requests.
const BUDGET: usize = 100;

// The last answer of the dock and what it led to at the laptop stand beside the two ends.
#[derive(Clone, Copy)]
pub struct Ends {
    pub owner: Owner,
    pub dock: Dock,
    pub answer: Message,
    pub outcome: Result<(), Refusal>,
}

impl Ends {
    // A laptop without a catalogue, and a dock that has so many SVIDs.
    pub fn new(count: usize) -> Ends {
        let mut dock = dock::fresh();
        load(&mut dock, count);
        Ends {
            owner: Owner::new(0),
            dock,
            answer: Message::nothing(),
            outcome: Ok(()),
        }
    }

    pub fn reload(&mut self, count: usize) {
        load(&mut self.dock, count);
    }

    // The laptop asks what it needs next, and hears the dock's answer, which the dock is still sending.
    pub fn exchange(&mut self, policy: Policy) {
        let asked = next(&mut self.owner);
        let answer = reply(&mut self.dock, policy, asked.request);
        self.outcome = hear(&mut self.owner, answer).outcome;
        self.answer = answer;
    }

    pub fn confirm(&mut self) {
        self.dock = after(self.dock, confirming::sent(self.dock));
    }

    pub fn fail(&mut self) {
        self.dock = after(self.dock, confirming::failed(self.dock));
    }

    pub fn confirmed_exchange(&mut self, policy: Policy) {
        self.exchange(policy);
        self.confirm();
    }

    // Confirmed exchanges as long as there is a candidate.
    pub fn gather(&mut self) {
        for _ in 0..BUDGET {
            if laptop_of(&self.owner).candidate == Candidate::Absent {
                break;
            }
            self.confirmed_exchange(Policy::Give);
        }
    }
}
