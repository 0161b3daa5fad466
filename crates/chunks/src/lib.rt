// Theory: a chunk's points by definition: as they are read, scanned, decoded and traced; and what follows. The code is tzb_core's.
#![tactic(auto)]
