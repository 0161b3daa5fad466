// Theory: the journal's entries, by definition: their bytes, their forms, and how they are read; and that reading gives back what was written. The code is entry_bytes'.
#![tactic(auto)]
