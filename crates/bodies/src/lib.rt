// The bodies of tuples: what is wrong with one, whatever its type.
#![tactic(auto)]

pub mod fault;
pub mod judge;
pub mod user;
