// Whether a party's seats are held.
ghost use Rattle.std.specs.Prelude.{◌≡◌};
ghost use Rattle.choosing.specs.Parties.{seats_of};
ghost use Rattle.pieces.specs.Memory.{covered_all};

use crate::choice::is_taken;
use crate::party::Party;
use pieces::memory::{Memory, Slot};

// Whether each seat of a party covers its trip on the train at a slot, and none is named twice.
pub fn covers_all(memory: &Memory, slot: Slot, party: &Party) -> bool
    ensures { result ≡ covered_all memory.now.words.items slot.index (seats_of party.now) party.now.trip.from.0 party.now.trip.to.0 }
{
    let seats = party.seats();
    for (index, seat) in seats.iter().enumerate() {
        if !memory.covers(slot, *seat, party.trip) || is_taken(&seats[..index], *seat) {
            return false;
        }
    }
    true
}
