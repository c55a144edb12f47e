// The listing of a recording, what is asked of an index and what it answers.
#![tactic(auto)]

pub mod answer;
