#![tactic(auto)]

// No code: of laptop, link and dock joined, the laptop holds its old catalogue to the word or the dock's whole one, in every run (proofs/).
