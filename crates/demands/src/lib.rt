// Only definitions and theorems: see specs/ and proofs/.
#![tactic(auto)]
