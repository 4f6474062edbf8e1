// What the programs of cases share: the sizes of a board, pages and volumes to run on, and lines of output.
#![tactic(auto)]

pub mod board;
pub mod build;
pub mod print;
