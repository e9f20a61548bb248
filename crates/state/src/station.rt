// A station: its open trains with what it holds of them, its closed trains, its tickets, and its channels.
ghost use Rattle.std.specs.Prelude.{◌≡◌, ◌+◌, ◌≤◌, vec_len};

use choosing::party::Party;
use giving::channels::Channels;
use giving::ids::Ask;
use pieces::memory::{Memory, PLACES};
use pieces::names::Train;

pub mod changes;
pub mod fits;
pub mod reads;
pub mod sales;

// There are so many numbers of stations.
pub const STATIONS: usize = 256;

// Each open train has a slot. `ever_sold` says at its place whether a ticket of it was ever sold here, `ever_gave` to which stations a piece of it was ever given. The ticket with the number n stands at n - 1 - dropped: it has its party while it stands, and none
// once it was undone or its train was closed.
#[derive(Drop)]
pub struct Station {
    slots: Vec<Option<Train>>,
    memory: Memory,
    ever_sold: [bool; PLACES],
    ever_gave: [[bool; STATIONS]; PLACES],
    closed: Vec<Train>,
    dropped: u32,
    tickets: Vec<Option<Party>>,
    // the last ask that was made
    asked: Ask,
    channels: Channels,
    ghost many: { vec_len slots ≡ 64 },
    ghost numbered: { dropped + vec_len tickets ≤ 4294967295 },
}
