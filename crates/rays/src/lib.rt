// Theory: what a point sees of a segment, in floats, by definition; and that at whole-number points it is exact geometry. The code is tzb_core's.
#![tactic(auto)]
