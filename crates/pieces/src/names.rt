// Numbers that are kept apart, each printed as the number that it is.
ghost use Rattle.std.specs.Prelude.{Some, decimal};

use std::fmt;

// A run of a train on a day.
#[derive(Clone, Copy, Debug, PartialEq, Eq, PartialOrd, Ord, Drop)]
pub struct Train(pub u32);

// A seat of a train, from 0.
#[derive(Clone, Copy, Debug, PartialEq, Eq, Drop)]
pub struct Seat(pub u16);

// A stop of a train, from 0. The stretch from a stop to the next one has the number of the stop.
#[derive(Clone, Copy, Debug, PartialEq, Eq, PartialOrd, Ord, Drop)]
pub struct Stop(pub u8);

impl fmt::Display for Train {
    ghost output = { λ x. Some (decimal x.0) };

    fn fmt<W: fmt::Write>(&self, f: &mut fmt::Formatter<W>) -> fmt::Result {
        write!(f, "{}", self.0)
    }
}

impl fmt::Display for Seat {
    ghost output = { λ x. Some (decimal x.0) };

    fn fmt<W: fmt::Write>(&self, f: &mut fmt::Formatter<W>) -> fmt::Result {
        write!(f, "{}", self.0)
    }
}

impl fmt::Display for Stop {
    ghost output = { λ x. Some (decimal x.0) };

    fn fmt<W: fmt::Write>(&self, f: &mut fmt::Formatter<W>) -> fmt::Result {
        write!(f, "{}", self.0)
    }
}
