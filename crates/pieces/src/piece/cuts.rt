// Pieces made of a seat and a trip, and pieces cut in parts.
ghost use Rattle.std.specs.Prelude.{◌≡◌, ◌<◌, MatchOption};
ghost use Rattle.pieces.specs.Parts.{piece_of, has};
ghost use Rattle.pieces.specs.Cuts.{Inside, IsPart, Before, Behind};

use crate::names::{Seat, Stop, Train};
use crate::piece::Piece;
use crate::stretch::Stretch;
use crate::trip::Trip;

impl Piece {
    pub fn new(train: Train, seat: Seat, trip: Trip) -> Piece
        ensures { result ≡ piece_of train seat trip }
    {
        Piece { train, seat, trip }
    }

    // Whether the piece has a stretch.
    pub fn has(self, at: Stretch) -> bool
        ensures { result ≡ has at.train.0 at.seat.0 at.stop.0 self }
    {
        at.train == self.train
            && at.seat == self.seat
            && self.trip.from <= at.stop
            && at.stop < self.trip.to
    }

    // The part of the piece from a stop to a later one; none where the other is not later.
    fn part(self, from: Stop, to: Stop) -> Option<Piece>
        ensures { MatchOption result ((from.0 < to.0) × (to.0 < 30) → ⊥) (λ q. (from.0 < to.0) × IsPart self q from to) }
    {
        Some(Piece {
            trip: Trip::new(from, to)?,
            ..self
        })
    }

    // What is left of the piece before a trip that is cut out of it, and behind it.
    pub fn cut(self, trip: Trip) -> Option<(Option<Piece>, Option<Piece>)>
        ensures { MatchOption result (Inside self trip → ⊥) (λ p. Inside self trip × Before self trip p.0 × Behind self trip p.1) }
    {
        if trip.from < self.trip.from || self.trip.to < trip.to {
            return None;
        }
        let before = self.part(self.trip.from, trip.from);
        let behind = self.part(trip.to, self.trip.to);
        Some((before, behind))
    }
}
