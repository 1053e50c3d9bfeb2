#![tactic(auto)]

// The laptop end publishes: a candidate that is whole replaces the held catalogue at once. Document 01, "The laptop
// end". The state is that of `laptop`.
mod publishing;

pub use publishing::{is_whole, publish};
