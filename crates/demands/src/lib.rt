#![tactic(auto)]

// No code: the three demands as theorems (proofs/Demands.antt), and how tight the promises are (proofs/Tight.antt).
