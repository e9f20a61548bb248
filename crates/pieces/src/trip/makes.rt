// Trips made of two stops.
ghost use Rattle.std.specs.Prelude.{◌≡◌, ◌<◌, MatchOption};
ghost use Rattle.pieces.specs.Parts.{trip_from};

use crate::names::Stop;
use crate::trip::Trip;

impl Trip {
    // The trip from a stop up to a later one that a train can have.
    pub fn new(from: Stop, to: Stop) -> Option<Trip>
        ensures value { result ≡ trip_from from to }
        ensures means { MatchOption result ((from.0 < to.0) × (to.0 < 30) → ⊥) (λ t. (t.from ≡ from) × (t.to ≡ to) × (from.0 < to.0) × (to.0 < 30)) }
    {
        if from < to && to.0 < 30 {
            Some(Trip { from, to })
        } else {
            None
        }
    }
}
