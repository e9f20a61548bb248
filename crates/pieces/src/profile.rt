// How many seats of a train hold each stretch.
ghost use Rattle.std.specs.Prelude.{◌≡◌, ℕ, ◌<◌, ◌≤◌, length, slice_index};
ghost use Rattle.pieces.specs.Counts.{count_held_on};

use crate::names::Stop;
use crate::words::held;
use std::array;

// For each stop the number of seats that hold the stretch from it to the next.
#[derive(Clone, Copy, Debug, Drop)]
pub struct Profile {
    pub held: [u16; 30],
}

// How many seats hold the stretch from a stop to the next.
fn held_on(seats: &[u64], stop: Stop) -> u16
    requires { length seats.now ≤ 400 }
    ensures { result ≡ count_held_on stop.0 seats.now }
{
    seats.iter().map(|word| u16::from(held(*word, stop))).sum()
}

impl Profile {
    pub fn count(seats: &[u64]) -> Profile
        requires { length seats.now ≤ 400 }
        ensures each { (k : ℕ) → k < 30 → slice_index result.held k ≡ count_held_on k seats.now }
        ensures long { length result.held ≡ 30 }
    {
        let held = array::from_fn(|stop| held_on(seats, Stop(stop as u8)));
        Profile { held }
    }
}
