// The lower crate: the ray test and the chunk code. What stands above it sees only their promises.
#![tactic(auto)]

pub mod chunk;
pub mod delta;
pub mod raycast;
pub mod varint;
