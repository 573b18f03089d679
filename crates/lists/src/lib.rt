// Definitions and laws on lists, in specs/ and proofs/. No code.
#![tactic(auto)]
