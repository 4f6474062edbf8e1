// The bench flash, and the events of a list.
#![tactic(auto)]

pub mod event;
pub mod operation;
