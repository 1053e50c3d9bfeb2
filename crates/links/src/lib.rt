#![tactic(auto)]

// Both ends of both links joined: the port, the partner's dock and the cable. Demand 3 for each side follows from that of one link: see specs/ and proofs/.
// There is no code.
