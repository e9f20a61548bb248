// What a world shows.
ghost use Rattle.std.specs.Prelude.{◌≡◌, ◌<◌, ◌≤◌, length, MatchOption, slice_index_or, vec_len};
ghost use Rattle.rehearsal.specs.Rises.{Rises};
ghost use Rattle.rehearsal.specs.Seen.{rows, count, state_of};
ghost use Rattle.state.specs.Views.{view};

use super::World;
use crate::post::Post;
use giving::ids::StationId;
use giving::message::Message;
use pieces::names::Train;
use state::station::Station;
use timetable::row::Row;

impl World {
    // How many stations there are.
    pub fn stations(&self) -> u8
        ensures { result ≡ count self.now }
    {
        self.posts.len() as u8
    }

    // The place of a station, if it is there.
    pub(super) fn place(&self, who: StationId) -> Option<usize>
        ensures { MatchOption result (count self.now ≤ who.0) (λ k. (who.0 < count self.now) × (k ≡ who.0)) }
    {
        (who.0 < self.stations()).then_some(usize::from(who.0))
    }

    // A station that is there, with its journal.
    pub(super) fn post(&self, who: StationId) -> &Post
        requires { who.0 < vec_len self.now.posts }
        ensures { result.now ≡ slice_index_or self.now.posts.items who.0 result.now }
    {
        &self.posts[usize::from(who.0)]
    }

    // A station, if it is there.
    pub fn station(&self, who: StationId) -> Option<&Station>
        ensures { MatchOption result (count self.now ≤ who.0) (λ s. (who.0 < count self.now) × (view s.now ≡ state_of self.now who.0)) }
    {
        let place = self.place(who)?;
        Some(&self.posts[place].machine.station)
    }

    // The row of a train.
    pub fn row(&self, train: Train) -> Option<Row>
        ensures { result ≡ rows self.now train.0 }
    {
        self.trains.row(train)
    }

    // All that was ever said, in order.
    pub fn said(&self) -> &[Message]
        ensures { result.now ≡ self.now.said.items }
    {
        &self.said
    }

    // A station comes up from its file, whatever of it is left: only want of memory can keep it from that.
    pub fn files_rise(&self)
        ensures { Rises self.now }
    {}
}
