// A station at work: its lasting state, what it has in mind, and room for what it writes in a step.
ghost use Rattle.std.specs.Prelude.{◌≡◌, vec_len};

use asking::desk::Desk;
use state::record::Record;
use state::station::Station;

pub mod makes;
pub mod steps;

#[derive(Drop)]
pub struct Machine {
    pub station: Station,
    pub desk: Desk,
    records: Vec<Record>,
    ghost between: { vec_len records ≡ 0 },
}
