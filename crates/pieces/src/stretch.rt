// A stretch: from a stop to the next one, of a seat of a train.
use crate::names::{Seat, Stop, Train};

#[derive(Clone, Copy, Debug, PartialEq, Eq, Drop)]
pub struct Stretch {
    pub train: Train,
    pub seat: Seat,
    pub stop: Stop,
}
