// Falls of stations, and the trains of one that lost its file.
ghost use Rattle.std.specs.Prelude.{◌≡◌, ◌<◌, ◌≤◌, false, Err, Some, vec_len, MatchResult, MatchBool, slice_set};
ghost use Rattle.giving.specs.declared.refusal.Refusal.TheVariants.{Malformed};
ghost use Rattle.network.specs.Falls.{Moves};
ghost use Rattle.rehearsal.specs.Seen.{seen, rows, count, cuts};
ghost use Rattle.rehearsal.specs.Turns.{Still, Same, Fallen, Left, Lists, TurnedIdle, WhereThere, cut_at, idle};

use super::World;
use crate::turn::Turn;
use giving::ids::StationId;
use giving::refusal::Refusal;
use ledger::input::Outcome;
use ledger::lost::lost_trains;
use pieces::names::Train;
use std::alloc::{AllocError, Global};

impl World {
    // The power of a station is cut between two steps.
    fn cut_at(&mut self, heap: Global, place: usize) -> Result<(), AllocError>
        requires { place < vec_len self.old.posts }
        ensures steps { self.old.made_up ≡ false → ∥ Moves (count self.old) (rows self.old) (seen self.old) (seen self.new) ∥₁ }
        ensures genuine { self.new.made_up ≡ self.old.made_up }
        ensures came { MatchResult result (λ _. Fallen self.old place (idle self.old place) 0 self.new) (λ _. Same self.old self.new) }
    {
        let bytes = self.posts[place].file.len();
        self.posts[place].restart(heap, &self.trains, bytes)
    }

    // The power of a station is cut now; a cut that is to come is still to come. False where it is not there.
    pub fn cut(&mut self, heap: Global, who: StationId) -> Result<bool, AllocError>
        ensures steps { self.old.made_up ≡ false → ∥ Moves (count self.old) (rows self.old) (seen self.old) (seen self.new) ∥₁ }
        ensures genuine { self.new.made_up ≡ self.old.made_up }
        ensures came { MatchResult result
            (λ there. MatchBool there ((who.0 < count self.old) × Left self.old who.0 (cut_at 0 (idle self.old who.0)) self.new × (cuts self.new ≡ cuts self.old)) ((count self.old ≤ who.0) × Same self.old self.new))
            (λ _. (who.0 < count self.old) × Same self.old self.new) }
    {
        let Some(place) = self.place(who) else {
            return Ok(false);
        };
        let to_come = self.posts[place].cut;
        self.cut_at(heap, place)?;
        self.posts[place].cut = to_come;
        Ok(true)
    }

    // The power of a station is to be cut when its next step has so many bytes on its file. False where it is not there.
    pub fn cut_next(&mut self, who: StationId, bytes: u32) -> bool
        ensures genuine { self.new.made_up ≡ self.old.made_up }
        ensures came { MatchBool result ((who.0 < count self.old) × Still self.old self.new × (cuts self.new ≡ slice_set (cuts self.old) who.0 (Some bytes))) ((count self.old ≤ who.0) × Same self.old self.new) }
    {
        let Some(place) = self.place(who) else {
            return false;
        };
        self.posts[place].cut = Some(bytes);
        true
    }

    // A station lists the trains of another one, which lost its file. None where it is not there.
    pub fn lost(
        &mut self,
        heap: Global,
        who: StationId,
        other: StationId,
    ) -> Result<Option<Turn<Vec<Train>>>, AllocError>
        ensures steps { self.old.made_up ≡ false → ∥ Moves (count self.old) (rows self.old) (seen self.old) (seen self.new) ∥₁ }
        ensures genuine { self.new.made_up ≡ self.old.made_up }
        ensures came { WhereThere result ((count self.old ≤ who.0) × Same self.old self.new) (λ t. (who.0 < count self.old) × TurnedIdle self.old who.0 self.new (Lists self.old who.0 other) t) }
    {
        let Some(place) = self.place(who) else {
            return Ok(None);
        };
        if self.posts[place].cut.is_some() {
            self.cut_at(heap, place)?;
            return Ok(Some(Turn::Fell));
        }
        let station = &self.posts[place].machine.station;
        let trains = lost_trains(heap, station, &self.trains, other);
        Ok(Some(Turn::Came(trains)))
    }

    // A station is asked for what is none of its steps, and refuses it by 1. None where it is not there.
    pub fn refuse(
        &mut self,
        heap: Global,
        who: StationId,
    ) -> Result<Option<Turn<Outcome>>, AllocError>
        ensures steps { self.old.made_up ≡ false → ∥ Moves (count self.old) (rows self.old) (seen self.old) (seen self.new) ∥₁ }
        ensures genuine { self.new.made_up ≡ self.old.made_up }
        ensures came { WhereThere result ((count self.old ≤ who.0) × Same self.old self.new) (λ t. (who.0 < count self.old) × TurnedIdle self.old who.0 self.new (λ r. r ≡ Err Malformed) t) }
    {
        let Some(place) = self.place(who) else {
            return Ok(None);
        };
        if self.posts[place].cut.is_some() {
            self.cut_at(heap, place)?;
            return Ok(Some(Turn::Fell));
        }
        Ok(Some(Turn::Came(Err(Refusal::Malformed))))
    }
}
