#![tactic(auto)]

// What the programs for people share: a word of the command line, the front of the file that it names, and lines about
// that file.
pub mod argument;
pub mod input;
pub mod naming;
pub mod path;
pub mod verdict;
