// Only worked files and what the full check and the demands say of them: see specs/ and proofs/.
#![tactic(auto)]
