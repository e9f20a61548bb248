// What a person asks of a station at its counter, and what is answered there.
#![tactic(auto)]

pub mod answer;
pub mod request;
pub mod task;
