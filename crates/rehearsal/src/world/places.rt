// Where a stretch of a seat is: what the stations of a world hold, what they have sold, and what is on its way between them.
ghost use Rattle.std.specs.Prelude.{◌≡◌, count_by, ◌<◌, ◌≤◌, [], ◌++◌, drop, replicate, IfOk, OnOk};
ghost use Rattle.choosing.specs.Parties.{pieces_of};
ghost use Rattle.giving.specs.Channels.{chan, line};
ghost use Rattle.giving.specs.Posts.{chans};
ghost use Rattle.network.specs.Places.{count_in, standing, under_way};
ghost use Rattle.pieces.specs.Parts.{has};
ghost use Rattle.rehearsal.specs.Found.{ways_from, spots_of, places_of, OneIn};
ghost use Rattle.rehearsal.specs.Seen.{count, state_of};
ghost use Rattle.state.specs.Views.{view};

use super::World;
use choosing::party::Party;
use giving::channel::Channel;
use giving::channels::Channels;
use giving::ids::StationId;
use network::place::Place;
use pieces::piece::Piece;
use pieces::stretch::Stretch;
use state::station::Station;
use std::alloc::{AllocError, Global};

// How many pieces of a party have the stretch.
fn count_party(party: &Party, at: Stretch) -> usize
    ensures value { result ≡ count_in at.train at.seat.0 at.stop.0 (pieces_of party.now) }
    ensures few { result ≤ 8 }
{
    party
        .seats()
        .iter()
        .filter(|seat| Piece::new(party.train, **seat, party.trip).has(at))
        .count()
}

// How many pieces of the tickets of a station that stand have the stretch.
fn count_sold(station: &Station, at: Stretch) -> usize
    ensures { result ≡ count_in at.train at.seat.0 at.stop.0 (standing (view station.now).tickets) }
{
    station
        .tickets()
        .iter()
        .map(|ticket| ticket.map_or(0, |party| count_party(&party, at)))
        .sum()
}

// How many of the pieces that wait in a channel have the stretch, without the first ones.
fn count_waiting(channel: &Channel, skip: usize, at: Stretch) -> usize
    ensures { result ≡ count_by (has at.train.0 at.seat.0 at.stop.0) (drop skip (chan channel.now).waiting) }
{
    let waiting = channel.waiting();
    if waiting.len() <= skip {
        return 0;
    }
    waiting.range(skip..).filter(|piece| piece.has(at)).count()
}

// The same of the pieces that wait for a station.
fn count_waiting_for(channels: &Channels, to: StationId, skip: usize, at: Stretch) -> usize
    ensures { result ≡ count_by (has at.train.0 at.seat.0 at.stop.0) (drop skip (line (chans channels.now) to.0).waiting) }
{
    channels
        .channel(to)
        .map_or(0, |channel| count_waiting(channel, skip, at))
}

// The same place, so many times.
fn push_many(found: &mut Vec<Place>, place: Place, count: usize) -> Result<(), AllocError>
    ensures { OnOk result (found.new.items ≡ found.old.items ++ replicate count place) }
{
    for _ in 0..count {
        found.push(place)?;
    }
    Ok(())
}

impl World {
    // How many pieces on their way between two stations have the stretch: what waits at the one, without what the other has
    // taken and the one has not heard of.
    fn count_way(&self, from: StationId, to: StationId, at: Stretch) -> usize
        requires { (from.0 < count self.now) × (to.0 < count self.now) }
        ensures { result ≡ count_in at.train at.seat.0 at.stop.0 (under_way from.0 to.0 (state_of self.now from.0) (state_of self.now to.0)) }
    {
        let giver = self.post(from).machine.station.channels();
        let taker = self.post(to).machine.station.channels();
        let taken = taker.taken_from(from).0;
        let skip = taken.saturating_sub(giver.heard_from(to).0);
        count_waiting_for(giver, to, skip as usize, at)
    }

    // The stretch on its way from one station to each.
    fn ways(&self, found: &mut Vec<Place>, who: StationId, at: Stretch) -> Result<(), AllocError>
        requires { who.0 < count self.now }
        ensures { OnOk result (found.new.items ≡ found.old.items ++ ways_from self.now at.train at.seat.0 at.stop.0 who.0) }
    {
        for k in 0..self.stations() {
            let to = StationId(k);
            push_many(found, Place::Way(who, to), self.count_way(who, to, at))?;
        }
        Ok(())
    }

    // All places of the stretch that a station knows of.
    fn spots(&self, found: &mut Vec<Place>, who: StationId, at: Stretch) -> Result<(), AllocError>
        requires { who.0 < count self.now }
        ensures all { OnOk result (at.seat.0 < 400 → found.new.items ≡ found.old.items ++ spots_of self.now at.train at.seat.0 at.stop.0 who.0) }
        ensures none { OnOk result (400 ≤ at.seat.0 → found.new.items ≡ found.old.items) }
    {
        let station = &self.post(who).machine.station;
        if station.holds_stretch(at) {
            found.push(Place::Held(who))?;
        }
        push_many(found, Place::Sold(who), count_sold(station, at))?;
        self.ways(found, who, at)
    }

    // All places where a stretch is, by station. No train has a seat with a number of 400 or more.
    pub fn find(&self, heap: Global, at: Stretch) -> Result<Vec<Place>, AllocError>
        ensures all { IfOk result (λ v. (at.seat.0 < 400 → v.items ≡ places_of self.now at.train at.seat.0 at.stop.0)) }
        ensures none { IfOk result (λ v. (400 ≤ at.seat.0 → v.items ≡ [])) }
        ensures one { IfOk result (λ v. OneIn self.now at.train at.seat.0 at.stop.0 v.items) }
    {
        let mut found = Vec::new(heap);
        for k in 0..self.stations() {
            self.spots(&mut found, StationId(k), at)?;
        }
        Ok(found)
    }
}
