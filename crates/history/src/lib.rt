// Demand 3, of what the contracts of the calls promise, and what a reader of it may ask beside it. The statements stand in
// specs/, their proofs in proofs/; there is no code.
#![tactic(auto)]
