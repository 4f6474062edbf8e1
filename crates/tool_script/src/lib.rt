// Scripts and traces: the input read; words, numbers and bytes; calls parsed; what the trace says put into words.
#![tactic(auto)]

pub mod buffer;
pub mod fault;
pub mod input;
pub mod parse;
pub mod text;
pub mod trace;
pub mod words;
