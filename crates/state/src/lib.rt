// A station's lasting state, and the records that change it.
#![tactic(auto)]

pub mod record;
pub mod station;
