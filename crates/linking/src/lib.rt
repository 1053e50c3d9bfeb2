#![tactic(auto)]

// The link of demand 3 and the dock at its far end: what the events on the link do to them.
mod ahead;
mod at_dock;
pub mod far_end;
mod highest;
pub mod link;
pub mod objects;
pub mod start;

#[derive(Clone, Copy)]
pub enum Event {
    RequestReaches,
    RequestLost,
    Give,
    Busy,
    AnswerArrives,
    AnswerLost,
    Sent,
    Failed,
}
