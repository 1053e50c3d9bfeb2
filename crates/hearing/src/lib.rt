#![tactic(auto)]

// The laptop end hears a message: what an answer brings is gathered, and the candidate published when the last one
// needed has come. Document 01, "The laptop end". The state and what is lent beside it are those of `laptop`.
mod awaited;
mod hearing;

pub use hearing::message;
