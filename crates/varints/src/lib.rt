// Theory: the chunk code's numbers, by definition, and what follows from it. The code that reads them is tzb_core's.
#![tactic(auto)]
