// The same memory lent: the words of all trains as one slice, 400 to a place, by one who keeps them himself.
ghost use Rattle.std.specs.Prelude.{◌≡◌, ◌<◌, ◌≤◌, length};
ghost use Rattle.std.specs.List.{AllByRecursion};
ghost use Rattle.pieces.specs.Memory.{word_at, altered, altered_all, without, together, without_all, together_all, seated, placed};
ghost use Rattle.pieces.specs.Stretches.{holds, covered};
ghost use Rattle.pieces.specs.declared.names.Seat.{Seat as Chair};

use crate::change::{Change, PutBack, TakeOut};
use crate::memory::SEATS;
use crate::names::{Seat, Stop};
use crate::trip::Trip;
use crate::{seats, words};

// Changes the stretches of a trip of one seat of the train at a place.
pub fn change_at<C: Change>(all: &mut [u64], place: usize, seat: Seat, trip: Trip)
    requires { (length all.old ≡ 25600) × ((place < 64) × (seat.0 < 400)) }
    ensures { all.new ≡ altered C.changed all.old place seat.0 trip.from.0 trip.to.0 }
{
    let first = place * SEATS;
    seats::change::<C>(&mut all[first..first + SEATS], seat, trip);
}

// Changes them of several seats, one after the other.
pub fn change_all_at<C: Change>(all: &mut [u64], place: usize, seats: &[Seat], trip: Trip)
    requires { (length all.old ≡ 25600) × ((place < 64) × (AllByRecursion (λ (s : Chair). s.0 < 400) seats.now)) }
    ensures { all.new ≡ altered_all C.changed all.old place seats.now trip.from.0 trip.to.0 }
{
    for seat in seats {
        change_at::<C>(all, place, *seat, trip);
    }
}

// Takes the trip out of a seat of the train at a place.
pub fn take_out_at(all: &mut [u64], place: usize, seat: Seat, trip: Trip)
    requires { (length all.old ≡ 25600) × ((place < 64) × (seat.0 < 400)) }
    ensures { all.new ≡ without all.old place seat.0 trip.from.0 trip.to.0 }
{
    change_at::<TakeOut>(all, place, seat, trip);
}

// Puts the trip into a seat of the train at a place.
pub fn put_in_at(all: &mut [u64], place: usize, seat: Seat, trip: Trip)
    requires { (length all.old ≡ 25600) × ((place < 64) × (seat.0 < 400)) }
    ensures { all.new ≡ together all.old place seat.0 trip.from.0 trip.to.0 }
{
    change_at::<PutBack>(all, place, seat, trip);
}

// Takes the trip out of several seats of the train at a place, one after the other.
pub fn take_out_all_at(all: &mut [u64], place: usize, seats: &[Seat], trip: Trip)
    requires { (length all.old ≡ 25600) × ((place < 64) × (AllByRecursion (λ (s : Chair). s.0 < 400) seats.now)) }
    ensures { all.new ≡ without_all all.old place seats.now trip.from.0 trip.to.0 }
{
    change_all_at::<TakeOut>(all, place, seats, trip);
}

// Puts the trip into several seats of the train at a place.
pub fn put_in_all_at(all: &mut [u64], place: usize, seats: &[Seat], trip: Trip)
    requires { (length all.old ≡ 25600) × ((place < 64) × (AllByRecursion (λ (s : Chair). s.0 < 400) seats.now)) }
    ensures { all.new ≡ together_all all.old place seats.now trip.from.0 trip.to.0 }
{
    change_all_at::<PutBack>(all, place, seats, trip);
}

// Gives each of the `count` seats of a train at a place the same word.
pub fn open_at(all: &mut [u64], place: usize, count: u16, word: u64)
    requires { (length all.old ≡ 25600) × ((place < 64) × (count ≤ 400)) }
    ensures { all.new ≡ placed all.old place (seated count word) }
{
    let first = place * SEATS;
    seats::seat_all(&mut all[first..first + SEATS], count, word);
}

// Whether a seat of the train at a place covers the trip.
pub fn covers_at(all: &[u64], place: usize, seat: Seat, trip: Trip) -> bool
    requires { (length all.now ≡ 25600) × ((place < 64) × (seat.0 < 400)) }
    ensures { result ≡ covered (word_at all.now place seat.0) trip.from.0 trip.to.0 }
{
    words::covers(all[place * SEATS + usize::from(seat.0)], trip)
}

// Whether a seat of the train at a place holds the stretch from a stop to the next.
pub fn holds_at(all: &[u64], place: usize, seat: Seat, stop: Stop) -> bool
    requires { (length all.now ≡ 25600) × ((place < 64) × (seat.0 < 400)) }
    ensures { result ≡ holds (word_at all.now place seat.0) stop.0 }
{
    words::held(all[place * SEATS + usize::from(seat.0)], stop)
}
