// The library for C of the board with 8-byte words: the functions of `punelovash_block` at u64, exported by name. C needs a name and a
// parameter list for each function of each board, so both libraries have each export. Flags are u8 and a getter says 0 for none, for the reason there.
#![tactic(auto)]

pub mod calls;
pub mod get;
pub mod restart;
pub mod search;
pub mod survey;
