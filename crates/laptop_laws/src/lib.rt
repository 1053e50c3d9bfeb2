#![tactic(auto)]

// What the laptop keeps, as laws over the definitions that its promises cite: see specs/ and proofs/Laws.antt. There is no code.
