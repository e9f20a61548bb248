// The two changes of a seat's word: a trip is taken out, or put back.
ghost use Rattle.std.specs.Prelude.{◌≡◌};
ghost use Rattle.pieces.specs.Memory.{Changing};
ghost use Rattle.pieces.specs.Stretches.{less, plus};

use crate::trip::Trip;
use crate::words::{put_back, taken_out};

pub trait Change {
    ghost changed: { Changing };

    // The word after the change of the stretches of a trip.
    fn word(word: u64, trip: Trip) -> u64
        ensures { result ≡ changed word trip.from.0 trip.to.0 };
}

pub struct TakeOut;

impl Change for TakeOut {
    ghost changed = { less };

    fn word(word: u64, trip: Trip) -> u64 {
        taken_out(word, trip)
    }
}

pub struct PutBack;

impl Change for PutBack {
    ghost changed = { plus };

    fn word(word: u64, trip: Trip) -> u64 {
        put_back(word, trip)
    }
}
