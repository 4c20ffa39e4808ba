// Choices by tests: the definitions in specs/ are what every layer's rules are written with; the laws about them are in proofs/. There is no code here.
#![tactic(auto)]
