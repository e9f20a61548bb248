// The seats of one train, a word for each.
ghost use Rattle.std.specs.Prelude.{◌≡◌, ◌-◌, ◌<◌, ◌≤◌, length, slice_index, slice_set};
ghost use Rattle.pieces.specs.Memory.{seated};
ghost use Rattle.pieces.specs.Stretches.{span};

use crate::change::Change;
use crate::names::Seat;
use crate::trip::Trip;

// Changes the stretches of a trip of one seat.
pub fn change<C: Change>(seats: &mut [u64], seat: Seat, trip: Trip)
    requires { seat.0 < length seats.old }
    ensures { seats.new ≡ slice_set seats.old seat.0 (C.changed (slice_index seats.old seat.0) trip.from.0 trip.to.0) }
{
    let word = &mut seats[usize::from(seat.0)];
    *word = C::word(*word, trip);
}

// Gives the first `count` seats the same word, and the others none.
pub fn seat_all(seats: &mut [u64], count: u16, word: u64)
    requires { (length seats.old ≡ 400) × (count ≤ 400) }
    ensures { seats.new ≡ seated count word }
{
    let (first, others) = seats.split_at_mut(usize::from(count));
    first.fill(word);
    others.fill(0);
}

// The word of a seat of which every stretch is held, of a train with so many stops.
pub fn full(stops: u8) -> u64
    requires { (2 ≤ stops) × (stops ≤ 30) }
    ensures { result ≡ span 0 (stops - 1) }
{
    (1 << (stops - 1)) - 1
}
