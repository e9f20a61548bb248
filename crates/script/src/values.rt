// What the numbers of a line stand for.
ghost use Rattle.std.specs.Prelude.{◌≡◌, ◌<◌, ◌≤◌, min, true, MatchOption};
ghost use Rattle.timetable.specs.Additions.{rowable};

use crate::command::Opening;
use giving::ids::StationId;
use pieces::names::Train;
use timetable::row::Row;

// A number as a byte: one that is none is 255, which is no stop, and too many people.
pub fn byte(number: u32) -> u8
    ensures { result ≡ min number 255 }
{
    u8::try_from(number).unwrap_or(u8::MAX)
}

// A station by its number; one that cannot be is the last of all, which is not there among fewer than 256.
pub fn station_id(number: u32) -> StationId
    ensures { result.0 ≡ min number 255 }
{
    StationId(byte(number))
}

// The row of a train that is to be opened among so many stations, where it can be one.
pub fn row(opening: Opening, stations: u16) -> Option<Row>
    requires { stations ≤ 256 }
    ensures { MatchOption result ((rowable opening.seats opening.stops ≡ true) × (opening.first < stations) → ⊥) (λ w. (w.train.0 ≡ opening.train) × (w.seats ≡ opening.seats) × (w.stops ≡ opening.stops) × (w.first.0 ≡ opening.first) × (opening.first < stations)) }
{
    let seats = u16::try_from(opening.seats).ok()?;
    let stops = u8::try_from(opening.stops).ok()?;
    let first = u8::try_from(opening.first).ok()?;
    if stations <= u16::from(first) {
        return None;
    }
    Row::new(Train(opening.train), seats, stops, StationId(first))
}
