// The calls of the log taken together: the theorems about all of them. The functions stand in the crates below.
#![tactic(auto)]
