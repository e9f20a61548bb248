// A piece: a trip of one seat of a train, by value.
use crate::names::{Seat, Train};
use crate::trip::Trip;

pub mod cuts;

#[derive(Clone, Copy, Debug, PartialEq, Eq, Drop)]
pub struct Piece {
    pub train: Train,
    pub seat: Seat,
    pub trip: Trip,
}
