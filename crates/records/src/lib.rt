// Record kinds: what a record is, and how tuples and sentences are known.
#![tactic(auto)]

pub mod bytes;
pub mod kind;
mod search;
pub mod sentences;
mod text;
pub mod tuples;
