#![tactic(auto)]

// What the two sides keep from each other, as laws over the definitions that the port's promises cite: see specs/ and proofs/. There is no code.
