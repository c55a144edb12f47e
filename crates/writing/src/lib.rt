// Tuples written behind one another, and taken apart again.
#![tactic(auto)]

pub mod header;
pub mod output;
pub mod refusal;
pub mod tuple;
