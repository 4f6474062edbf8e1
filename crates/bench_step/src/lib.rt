// One event of a list, on the bench's world.
#![tactic(auto)]

pub mod calls;
pub mod power;
pub mod step;
pub mod world;
