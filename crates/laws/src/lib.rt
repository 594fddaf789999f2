// Theorems on the trusted text. They stand in proofs/; there is no code.
#![tactic(auto)]
