// Two wrong levels of a frame: a law alone, with no code. It computes all pairs of levels, so it stands apart from the public list.

#![tactic(auto)]
