// What a station keeps in mind and not on its file: what others have told, the ask under way, and the ticks since they last told each other.
ghost use Rattle.std.specs.Prelude.{◌≤◌, ◌<◌, vec_len, vec_capacity};

use crate::told::Told;
use giving::ids::StationId;
use pieces::demand::Demand;
use pieces::names::Train;

pub mod calls;
pub mod decide;
pub mod moves;
pub mod ticks;
pub mod turns;

// While an ask is under way `demand` is what is still wanted, and the stations of `order` from the place `at` on are still to answer: the first of
// these is asked now. `trains` is room for the open trains in the order of their numbers.
#[derive(Drop)]
pub struct Desk {
    told: Told,
    demand: Option<Demand>,
    order: Vec<StationId>,
    at: usize,
    trains: Vec<Train>,
    ticks: u8,
    ghost stations: { 256 ≤ vec_capacity order },
    ghost slots: { 64 ≤ vec_capacity trains },
    ghost few: { ticks < 50 },
}
