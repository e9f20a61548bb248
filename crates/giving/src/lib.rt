// Numbers against loss and doubling: pieces that stations give to each other, until they are heard of.
#![tactic(auto)]

pub mod channel;
pub mod channels;
pub mod ids;
pub mod message;
pub mod refusal;
