// Bodies of pings and profiles: sonar, profile, sonar and profile, multi sonar.
#![tactic(auto, using(layouts::proofs::Numbers::number_read))]

pub mod fault;
pub mod multi;
pub mod packet;
pub mod pair;
pub mod profile;
pub mod sonar;
