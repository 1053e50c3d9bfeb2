#![tactic(auto)]

// What the programs share of reading: numbers off standard input, one at a time or in blocks, and how a stream ended.
pub mod block;
pub mod finish;
pub mod input;
