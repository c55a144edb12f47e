// Index files: the rows of a listing, and how far it came.
#![tactic(auto)]

mod body;
pub mod counts;
pub mod file;
pub mod refusal;
pub mod row;
mod sound;
pub mod write;
