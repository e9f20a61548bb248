// Seats of trains, from stop to stop: which stretches of a seat are held, as the bits of one word.
#![tactic(auto)]

pub mod change;
pub mod demand;
pub mod laws;
pub mod memory;
pub mod names;
pub mod piece;
pub mod profile;
pub mod seats;
pub mod stretch;
pub mod tally;
#[cfg(test)]
mod tests;
pub mod trip;
pub mod words;
