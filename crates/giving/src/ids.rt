// Numbers that are kept apart.
ghost use Rattle.std.specs.Prelude.{◌≡◌, ◌+◌, nat_lt, if◌then◌else◌, Some, None, decimal};
ghost use Rattle.giving.specs.Others.{other_of};

use std::fmt;

// A station, from 0.
#[derive(Clone, Copy, Debug, PartialEq, Eq, Drop)]
pub struct StationId(pub u8);

impl StationId {
    // Another station by its number. One that no station can have is `me`, the one that is asked, which is refused alike.
    pub fn other(number: u32, me: StationId) -> StationId
        ensures { result ≡ other_of me number }
    {
        u8::try_from(number).map_or(me, StationId)
    }
}

impl fmt::Display for StationId {
    ghost output = { λ k. Some (decimal k.0) };

    fn fmt<W: fmt::Write>(&self, f: &mut fmt::Formatter<W>) -> fmt::Result {
        write!(f, "{}", self.0)
    }
}

// The number of a piece given by one station to another, from 1.
#[derive(Clone, Copy, Debug, PartialEq, Eq, PartialOrd, Ord, Drop)]
pub struct Number(pub u32);

impl Number {
    // The number after this one, if there is one.
    pub fn next(self) -> Option<Number>
        ensures { result ≡ (if nat_lt self.0 4294967295 then Some (record { 0 = self.0 + 1 }) else None) }
    {
        self.0.checked_add(1).map(Number)
    }
}

impl fmt::Display for Number {
    ghost output = { λ n. Some (decimal n.0) };

    fn fmt<W: fmt::Write>(&self, f: &mut fmt::Formatter<W>) -> fmt::Result {
        write!(f, "{}", self.0)
    }
}

// A ticket of a station's own, from 1.
#[derive(Clone, Copy, Debug, PartialEq, Eq, Drop)]
pub struct Ticket(pub u32);

impl fmt::Display for Ticket {
    ghost output = { λ k. Some (decimal k.0) };

    fn fmt<W: fmt::Write>(&self, f: &mut fmt::Formatter<W>) -> fmt::Result {
        write!(f, "{}", self.0)
    }
}

// The number of an ask of a station's, from 1; 0 where none is meant.
#[derive(Clone, Copy, Debug, PartialEq, Eq, PartialOrd, Ord, Drop)]
pub struct Ask(pub u32);
