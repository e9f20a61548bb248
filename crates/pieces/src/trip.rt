// A trip: from a stop up to a later one. No train has more than 30 stops.
ghost use Rattle.std.specs.Prelude.{◌<◌};

use crate::names::Stop;

pub mod makes;

#[derive(Clone, Copy, Debug, PartialEq, Eq, Drop)]
pub struct Trip {
    pub from: Stop,
    pub to: Stop,
    ghost ordered: { from.0 < to.0 },
    ghost near: { to.0 < 30 },
}
