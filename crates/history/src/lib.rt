#![tactic(auto)]

// Demand 3: the theorem over every list of calls. It is all in specs/ (what it says) and proofs/; there is no code here.
