#![tactic(auto)]

// The laptop end gathers the list: the answers to Identity and SVIDs. Document 01, "The laptop end". The state is that
// of `laptop`.
mod gathering;

pub use gathering::{hear_identity, hear_svids};

const MOST_PAGES: u8 = 200;
