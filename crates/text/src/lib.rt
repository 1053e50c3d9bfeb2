#![tactic(auto, using(crate::proofs::Text::with_both))]

// What the programs share of writing: a line of output, built in a buffer that is lent.
mod buffer;
mod digits;
pub mod line;
