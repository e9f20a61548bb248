// A trip that so many people want.
use crate::names::{Stop, Train};

// In bare numbers: it may be no trip of the train, or for nobody.
#[derive(Clone, Copy, Debug, PartialEq, Eq, Drop)]
pub struct Demand {
    pub train: Train,
    pub from: Stop,
    pub to: Stop,
    pub people: u8,
}
