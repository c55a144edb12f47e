// Fields of fixed bodies and of settings, read and set.
#![tactic(auto, using(layouts::proofs::Numbers::number_read))]

pub mod fault;
pub mod read;
pub mod set;
