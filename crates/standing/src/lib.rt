// Only laws over definitions of other crates, which the pages name and which no proof cites any more: see proofs/.
#![tactic(auto)]
