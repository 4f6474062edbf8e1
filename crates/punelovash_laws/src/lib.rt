// Lists of calls on a block: the theorem that they are lists of calls on the log that it holds.
#![tactic(auto)]
