// Made-up bytes: they come to a station, and nobody need have said them.
ghost use Rattle.std.specs.Prelude.{◌≡◌, ◌<◌, ◌≤◌, false, ◌||◌};
ghost use Rattle.network.specs.Falls.{Moves};
ghost use Rattle.receiving.specs.Incoming.{incoming};
ghost use Rattle.rehearsal.specs.Seen.{seen, rows, count, state_of};
ghost use Rattle.rehearsal.specs.Turns.{Same, TurnedBy, WhereThere, acted};

use super::World;
use crate::coming::Coming;
use crate::turn::Turn;
use asking::event::Reply;
use giving::ids::StationId;
use std::alloc::{AllocError, Global};

impl World {
    // Whatever comes to a station, from whomever it is said to be. The world is marked for it, unless it is turned away. None where there is no such station.
    pub fn receive(
        &mut self,
        heap: Global,
        who: StationId,
        from: u32,
        bytes: &[u8],
    ) -> Result<Option<Turn<Reply>>, AllocError>
        ensures steps { self.new.made_up ≡ false → ∥ Moves (count self.old) (rows self.old) (seen self.old) (seen self.new) ∥₁ }
        ensures came { WhereThere result ((count self.old ≤ who.0) × Same self.old self.new) (λ t. (who.0 < count self.old) × TurnedBy self.old who.0 (incoming (state_of self.old who.0).me from bytes.now) self.new t) }
        ensures marked { WhereThere result (self.new.made_up ≡ self.old.made_up) (λ t. self.new.made_up ≡ (self.old.made_up || acted t)) }
    {
        let Some(place) = self.place(who) else {
            return Ok(None);
        };
        let turn = self.perform(heap, place, Coming::Bytes { from, bytes }, true)?;
        Ok(Some(turn))
    }
}
