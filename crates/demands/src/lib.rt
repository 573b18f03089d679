// The three demands on the rules, as statements, in specs/, and the theorems of the rules, which prove them, in proofs/. No code.
#![tactic(auto)]
