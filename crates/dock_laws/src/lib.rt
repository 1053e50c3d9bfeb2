#![tactic(auto)]

// What the dock keeps, as laws over the definitions that its promises cite: see specs/ and proofs/Lib.antt. There is no code.
