// Only a worked file and what opening says of it: see specs/ and proofs/.
#![tactic(auto)]
