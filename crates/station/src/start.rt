// How a station is started.
ghost use Rattle.std.specs.Prelude.{◌≡◌, ◌<◌, ◌≤◌, MatchOption};

use giving::ids::StationId;
use script::command::number;

// Its number among so many stations, and whether this is its very first start.
#[derive(Clone, Copy, Drop)]
pub struct Start {
    pub me: StationId,
    pub stations: u16,
    pub is_first: bool,
    ghost few: { stations ≤ 256 },
}

impl Start {
    // One of at most 256 stations.
    fn new(me: u32, stations: u32, is_first: bool) -> Option<Start>
        ensures { MatchOption result ((me < stations) × (stations ≤ 256) → ⊥) (λ s. (s.me.0 ≡ me) × (s.stations ≡ stations) × (s.is_first ≡ is_first)) }
    {
        if me >= stations || stations > 256 {
            return None;
        }
        Some(Start {
            me: StationId(me as u8),
            stations: stations as u16,
            is_first,
        })
    }

    // The words behind the program's name: `I N`, or `I N new`.
    pub fn read(words: &[String]) -> Option<Start> {
        let (me, stations, is_first) = match words {
            [me, stations] => (me, stations, false),
            [me, stations, word] if word.as_str() == "new" => (me, stations, true),
            _ => return None,
        };
        Start::new(number(me)?, number(stations)?, is_first)
    }
}
