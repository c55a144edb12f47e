// Bodies that are members end to end: the fixed bodies and settings.
#![tactic(auto, using(crate::proofs::Numbers::number_read))]

pub mod catalogue;
pub mod fault;
pub mod kind;
pub mod letters;
pub mod locate;
mod members;
pub mod settings;
