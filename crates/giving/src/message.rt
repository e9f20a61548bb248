// What one station says to another.
use crate::ids::{Ask, Number, StationId};
use pieces::demand::Demand;
use pieces::names::Train;
use pieces::piece::Piece;
use pieces::tally::Tally;

#[derive(Clone, Copy, Debug, PartialEq, Eq, Drop)]
pub enum Body {
    // this piece is given, under this number
    Given(Number, Piece),
    // all up to this number is taken
    Taken(Number),
    // pieces are asked for
    Asked(Ask, Demand),
    // so many pieces are given for an ask
    Answered(Ask, u8),
    // so much is held of a train
    Told(Train, Tally),
}

#[derive(Clone, Copy, Debug, PartialEq, Eq, Drop)]
pub struct Message {
    pub from: StationId,
    pub to: StationId,
    pub body: Body,
}
