// Only laws: see specs/.
#![tactic(auto)]
