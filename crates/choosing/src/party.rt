// A party: people who make one trip on a train, each with a seat of their own, in the order in which the seats were taken.
ghost use Rattle.std.specs.Prelude.{◌≤◌};

use pieces::names::{Seat, Train};
use pieces::trip::Trip;

pub mod makes;

// At most so many people make a trip together.
pub const MOST: usize = 8;

// The first `count` seats are taken; the others are 0.
#[derive(Clone, Copy, Drop)]
pub struct Party {
    pub train: Train,
    pub trip: Trip,
    seats: [Seat; MOST],
    count: u8,
    ghost few: { count ≤ 8 },
}
