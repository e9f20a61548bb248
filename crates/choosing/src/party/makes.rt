// Parties made, read, and printed.
ghost use Rattle.std.specs.Prelude.{◌≡◌, ◌<◌, ◌&&◌, List, [], ◌∷◌, ◌++◌, length, nat_lt, Some};
ghost use Rattle.choosing.specs.Parties.{party_of, seats_of, below, printed};
ghost use Rattle.pieces.specs.declared.names.Seat.{Seat as Chair};
ghost use Rattle.pieces.specs.declared.names.Train.{Train as Run};
ghost use Rattle.pieces.specs.declared.trip.Trip.{Trip as Way};

use super::{MOST, Party};
use pieces::names::{Seat, Train};
use pieces::trip::Trip;
use std::fmt;

impl Party {
    // A party with nobody in it yet.
    pub fn new(train: Train, trip: Trip) -> Party
        ensures { result ≡ party_of train trip [] }
    {
        Party {
            train,
            trip,
            seats: [Seat(0); MOST],
            count: 0,
        }
    }

    // The seats, in the order in which they were taken.
    pub fn seats(&self) -> &[Seat]
        ensures { result.now ≡ seats_of self.now }
    {
        &self.seats[..usize::from(self.count)]
    }

    // How many people there are.
    pub fn len(&self) -> usize
        ensures { result ≡ length (seats_of self.now) }
    {
        self.seats().len()
    }

    // One more, with a seat.
    pub fn push(&mut self, seat: Seat)
        requires { length (seats_of self.old) < 8 }
        ensures { (z : Run) (t : Way) (ss : List Chair) → self.old ≡ party_of z t ss → self.new ≡ party_of z t (ss ++ seat ∷ []) }
    {
        self.seats[usize::from(self.count)] = seat;
        self.count += 1;
    }

    // Whether a train with so many seats and stops has all of it.
    pub fn is_within(&self, seats: u16, stops: u8) -> bool
        ensures { result ≡ (nat_lt self.now.trip.to.0 stops && below seats (seats_of self.now)) }
    {
        self.trip.to.0 < stops && self.seats().iter().all(|seat| seat.0 < seats)
    }
}

impl fmt::Display for Party {
    ghost output = { λ p. Some (printed p) };

    fn fmt<W: fmt::Write>(&self, f: &mut fmt::Formatter<W>) -> fmt::Result {
        let Trip { from, to, .. } = self.trip;
        write!(f, "{}", self.train)?;
        for seat in self.seats() {
            write!(f, " {seat}:{from}-{to}")?;
        }
        Ok(())
    }
}
