// What happens in a world. Each call is a run of moves, as long as nothing made up was taken, and exactly what was asked.
ghost use Rattle.std.specs.Prelude.{◌≡◌, ℕ, ◌<◌, ◌≤◌, false, ◌||◌, ◌&&◌, Some, None, [], replicate, IfOk, vec_len, MatchResult, MatchBool};
ghost use Rattle.asking.specs.Events.{event_of};
ghost use Rattle.asking.specs.Minds.{empty as unminded};
ghost use Rattle.network.specs.Falls.{Moves};
ghost use Rattle.network.specs.Runs.{HeedsAll};
ghost use Rattle.counter.specs.Requests.{requested};
ghost use Rattle.recovery.specs.Runs.{Typed};
ghost use Rattle.rehearsal.specs.Comings.{event_in};
ghost use Rattle.rehearsal.specs.Seen.{seen, rows, count, state_of, mind_of, cuts};
ghost use Rattle.rehearsal.specs.Turns.{Same, TurnedBy, acted, TurnedOpen, WhereThere, Delivered, Undelivered};
ghost use Rattle.state.specs.States.{begun};
ghost use Rattle.timetable.specs.Additions.{empty};

use super::World;
use crate::coming::Coming;
use crate::post::Post;
use crate::turn::Turn;
use asking::event::Reply;
use counter::request::Request;
use giving::ids::StationId;
use giving::message::Message;
use ledger::input::Outcome;
use lines::frame::Frame;
use recovery::machine::Machine;
use std::alloc::{AllocError, Global};
use timetable::row::Row;
use timetable::timetable::Timetable;

impl World {
    // So many stations that have done nothing yet and have nothing in mind, and a timetable with no train.
    pub fn new(heap: Global, stations: u8) -> Result<World, AllocError>
        ensures { IfOk result (λ w. (count w ≡ stations) × (rows w ≡ empty) × (w.said.items ≡ []) × (w.made_up ≡ false) × (cuts w ≡ replicate stations None)
            × ((k : ℕ) → k < stations → (state_of w k ≡ begun stations k) × (mind_of w k ≡ unminded))) }
    {
        let mut posts = Vec::new(heap);
        for k in 0..stations {
            let machine = Machine::new(heap, StationId(k), u16::from(stations))?;
            let file = Vec::new(heap);
            posts.push(Post {
                machine,
                file,
                cut: None,
            })?;
        }
        Ok(World {
            trains: Timetable::new(heap),
            posts,
            said: Vec::new(heap),
            made_up: false,
        })
    }

    // Something comes to a station; unless it is made up, what it takes or hears must have been said to it. Where its power is to be cut, it falls
    // in the midst of it.
    pub(super) fn perform(
        &mut self,
        heap: Global,
        place: usize,
        coming: Coming<'_>,
        made_up: bool,
    ) -> Result<Turn<Reply>, AllocError>
        requires there { place < vec_len self.old.posts }
        requires typed { Typed (event_in (state_of self.old place).me coming) }
        requires told { self.old.made_up ≡ false → made_up ≡ false → HeedsAll self.old.said.items place (event_in (state_of self.old place).me coming) }
        ensures steps { self.new.made_up ≡ false → ∥ Moves (count self.old) (rows self.old) (seen self.old) (seen self.new) ∥₁ }
        ensures marked { self.new.made_up ≡ (self.old.made_up || (made_up && acted result)) }
        ensures came { TurnedBy self.old place (event_in (state_of self.old place).me coming.entry) self.new result }
    {
        let Some(bytes) = self.posts[place].cut else {
            let reply = self.posts[place].handle(&self.trains, &mut self.said, coming);
            self.made_up |= made_up && reply.is_ok();
            return Ok(Turn::Came(reply));
        };
        self.made_up |= made_up;
        self.posts[place].fall(heap, &self.trains, &mut self.said, coming, bytes)?;
        Ok(Turn::Fell)
    }

    // A station is asked at its counter, or its clock ticks. None where it is not there.
    pub fn ask(
        &mut self,
        heap: Global,
        who: StationId,
        request: Request,
    ) -> Result<Option<Turn<Reply>>, AllocError>
        ensures steps { self.old.made_up ≡ false → ∥ Moves (count self.old) (rows self.old) (seen self.old) (seen self.new) ∥₁ }
        ensures genuine { self.new.made_up ≡ self.old.made_up }
        ensures came { WhereThere result ((count self.old ≤ who.0) × Same self.old self.new) (λ t. (who.0 < count self.old) × TurnedBy self.old who.0 (requested request) self.new t) }
    {
        let Some(place) = self.place(who) else {
            return Ok(None);
        };
        let turn = self.perform(heap, place, Coming::Request(request), false)?;
        Ok(Some(turn))
    }

    // A train is opened at a station, and all have its row.
    pub fn open(
        &mut self,
        heap: Global,
        who: StationId,
        row: Row,
    ) -> Result<Option<Turn<Outcome>>, AllocError>
        ensures steps { self.old.made_up ≡ false → ∥ Moves (count self.old) (rows self.new) (seen self.old) (seen self.new) ∥₁ }
        ensures genuine { self.new.made_up ≡ self.old.made_up }
        ensures came { WhereThere result ((count self.old ≤ who.0) × Same self.old self.new) (λ t. (who.0 < count self.old) × TurnedOpen self.old who.0 row self.new t) }
    {
        let Some(place) = self.place(who) else {
            return Ok(None);
        };
        let turn = self.open_at(heap, place, row)?;
        Ok(Some(turn))
    }

    // A station opens a train, or falls in the midst of it.
    fn open_at(&mut self, heap: Global, place: usize, row: Row) -> Result<Turn<Outcome>, AllocError>
        requires { place < vec_len self.old.posts }
        ensures steps { self.old.made_up ≡ false → ∥ Moves (count self.old) (rows self.new) (seen self.old) (seen self.new) ∥₁ }
        ensures genuine { self.new.made_up ≡ self.old.made_up }
        ensures came { TurnedOpen self.old place row self.new result }
    {
        let Some(bytes) = self.posts[place].cut else {
            let outcome = self.posts[place].open(&mut self.trains, row);
            return Ok(Turn::Came(outcome));
        };
        self.posts[place].fall_opening(heap, &mut self.trains, row, bytes)?;
        Ok(Turn::Fell)
    }

    // The bytes of a message that was said to a station come to it.
    fn bring(
        &mut self,
        heap: Global,
        place: usize,
        message: Message,
    ) -> Result<Turn<Reply>, AllocError>
        requires there { place < vec_len self.old.posts }
        requires told { HeedsAll self.old.said.items place (event_of message.from message.body) }
        ensures steps { self.old.made_up ≡ false → ∥ Moves (count self.old) (rows self.old) (seen self.old) (seen self.new) ∥₁ }
        ensures genuine { self.new.made_up ≡ self.old.made_up }
        ensures came { TurnedBy self.old place (event_of message.from message.body) self.new result }
    {
        let frame = Frame::of(message.body);
        let coming = Coming::Bytes {
            from: u32::from(message.from.0),
            bytes: frame.bytes(),
        };
        self.perform(heap, place, coming, false)
    }

    // A message that was said, now or long ago, comes to the station that it is for.
    pub fn deliver(
        &mut self,
        heap: Global,
        at: usize,
    ) -> Result<Option<(Message, Turn<Reply>)>, AllocError>
        ensures steps { self.old.made_up ≡ false → ∥ Moves (count self.old) (rows self.old) (seen self.old) (seen self.new) ∥₁ }
        ensures genuine { self.new.made_up ≡ self.old.made_up }
        ensures came { WhereThere result (Undelivered self.old at × Same self.old self.new) (Delivered self.old at self.new) }
    {
        let Some(&message) = self.said.get(at) else {
            return Ok(None);
        };
        let Some(place) = self.place(message.to) else {
            return Ok(None);
        };
        let turn = self.bring(heap, place, message)?;
        Ok(Some((message, turn)))
    }
}
