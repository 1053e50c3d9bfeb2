#![tactic(auto)]

// The laptop end hears answers about modes: Modes, Enter and Exit. Document 01, "The laptop end". The state is that of
// `laptop`.
mod answers;

pub use answers::{hear_mode, hear_modes};
