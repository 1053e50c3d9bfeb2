#![tactic(auto)]

// No code: of laptop, link and dock joined, a gathering gets on, and the dock's whole catalogue replaces the old one (proofs/).
