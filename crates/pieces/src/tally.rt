// How much of a train a station holds, in two numbers.
ghost use Rattle.std.specs.Prelude.{◌≡◌, ◌-◌, ◌<◌, ◌≤◌, ◌==◌, not, length, count_by};
ghost use Rattle.pieces.specs.Counts.{tally_of};
ghost use Rattle.pieces.specs.Stretches.{covered};

use crate::names::Stop;
use crate::trip::Trip;
use crate::words::covers;

// On how many seats it holds the whole line, and on how many any piece.
#[derive(Clone, Copy, Debug, PartialEq, Eq, Drop)]
pub struct Tally {
    pub whole: u16,
    pub any: u16,
}

// How many seats cover the trip.
fn covering(seats: &[u64], trip: Trip) -> u16
    requires { length seats.now ≤ 400 }
    ensures { result ≡ count_by (λ w. covered w trip.from.0 trip.to.0) seats.now }
{
    seats.iter().filter(|word| covers(**word, trip)).count() as u16
}

// On how many seats anything is held.
fn not_empty(seats: &[u64]) -> u16
    requires { length seats.now ≤ 400 }
    ensures { result ≡ count_by (λ w. not (w == 0)) seats.now }
{
    seats.iter().filter(|word| **word != 0).count() as u16
}

impl Tally {
    // Of a train with so many stops, by the words of its seats.
    pub fn count(seats: &[u64], stops: u8) -> Tally
        requires { (length seats.now ≤ 400) × (2 ≤ stops) × (stops ≤ 30) }
        ensures { result ≡ tally_of (stops - 1) seats.now }
    {
        let line = Trip {
            from: Stop(0),
            to: Stop(stops - 1),
        };
        Tally {
            whole: covering(seats, line),
            any: not_empty(seats),
        }
    }
}
