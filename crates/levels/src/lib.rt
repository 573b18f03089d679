// The table of counts beside a list, one for each window of every level: definitions, in specs/, and their theorems, in proofs/. No code.
#![tactic(auto)]
