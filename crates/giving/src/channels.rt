// The channels of a station to all stations, and how many pieces wait in them together.
ghost use Rattle.std.specs.Prelude.{◌≡◌, ◌≤◌, map, vec_len};
ghost use Rattle.giving.specs.Channels.{chan, all_waiting};

use crate::channel::Channel;
use crate::ids::StationId;

pub mod moves;
pub mod reads;

#[derive(Drop)]
pub struct Channels {
    me: StationId,
    lines: Vec<Channel>,
    waiting: usize,
    ghost counted: { waiting ≡ all_waiting (map chan lines.items) },
    ghost few: { waiting ≤ 4096 },
    ghost near: { vec_len lines ≤ 256 },
}
