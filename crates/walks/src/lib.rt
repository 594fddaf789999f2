// Walks over the pages of an image, each page claimed once: what they find, and what follows. It stands in specs/ and proofs/; there is
// no code.
#![tactic(auto)]
