// Rows, and what a train has.
ghost use Rattle.std.specs.Prelude.{◌≡◌, true, false, MatchOption};
ghost use Rattle.timetable.specs.Additions.{rowable};
ghost use Rattle.timetable.specs.Rows.{within};

use super::Row;
use giving::ids::StationId;
use pieces::names::Train;
use pieces::piece::Piece;

impl Row {
    // The row of a train; none where it has too few or too many seats or stops.
    pub fn new(train: Train, seats: u16, stops: u8, first: StationId) -> Option<Row>
        ensures { MatchOption result (rowable seats stops ≡ false) (λ w. (rowable seats stops ≡ true) × (w.train ≡ train) × (w.seats ≡ seats) × (w.stops ≡ stops) × (w.first ≡ first)) }
    {
        if !(1..=400).contains(&seats) || !(2..=30).contains(&stops) {
            return None;
        }
        Some(Row {
            train,
            seats,
            stops,
            first,
        })
    }

    // Whether the train has a piece's seat and stops.
    pub fn has(self, piece: Piece) -> bool
        ensures { result ≡ within self piece }
    {
        piece.seat.0 < self.seats && piece.trip.to.0 < self.stops
    }
}
