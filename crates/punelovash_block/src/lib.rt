// The log for C and Rust, on either board: functions on numbers and byte slices, with the log in a block of bytes that the caller lends. Each is generic
// over the board's word; the libraries for C, `punelovash_c` and `punelovash8_c`, export it at u32 and at u64. Flags and the driver's word are u8, and
// a getter of a block that holds no log says 0, since C has no Option and no enum with values.
#![tactic(auto)]

pub mod block;
pub mod calls;
pub mod get;
pub mod numbers;
pub mod restart;
pub mod search;
pub mod survey;
