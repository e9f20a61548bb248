// One train of the timetable. Its stops are 0 to `stops` - 1.
ghost use Rattle.std.specs.Prelude.{◌≤◌};

use giving::ids::StationId;
use pieces::names::Train;

pub mod makes;

#[derive(Clone, Copy, Debug, PartialEq, Eq, Drop)]
pub struct Row {
    pub train: Train,
    pub seats: u16,
    pub stops: u8,
    pub first: StationId,
    ghost seated: { 1 ≤ seats },
    ghost few: { seats ≤ 400 },
    ghost long: { 2 ≤ stops },
    ghost short: { stops ≤ 30 },
}
