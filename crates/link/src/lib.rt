#![tactic(auto)]

// No code: the laptop end, the link and the dock end joined, what demand 3 says of them, and cases and runs that compute (specs/, proofs/).
