// Where a stretch of a seat is: held by a station, sold by it, or on its way from one to another.
ghost use Rattle.std.specs.Prelude.{Some};
ghost use Rattle.network.specs.Places.{printed};

use giving::ids::StationId;
use std::fmt;

#[derive(Clone, Copy, Debug, PartialEq, Eq, Drop)]
pub enum Place {
    Held(StationId),
    Sold(StationId),
    Way(StationId, StationId),
}

impl fmt::Display for Place {
    ghost output = { λ p. Some (printed p) };

    fn fmt<W: fmt::Write>(&self, f: &mut fmt::Formatter<W>) -> fmt::Result {
        match self {
            Place::Held(who) => write!(f, "held {who}"),
            Place::Sold(who) => write!(f, "sold {who}"),
            Place::Way(from, to) => write!(f, "way {from} {to}"),
        }
    }
}
