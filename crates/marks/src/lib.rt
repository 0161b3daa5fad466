// Only the marked points: see specs/.
#![tactic(auto)]
