// Lists of events: read from bytes, run, and what is read after them.
#![tactic(auto)]

pub mod decode;
pub mod entries;
pub mod run;
