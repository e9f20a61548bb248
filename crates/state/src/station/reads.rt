// What a station can tell.
ghost use Rattle.std.specs.Prelude.{◌≡◌, ◌-◌, ◌<◌, ◌≤◌, true, ◌&&◌, length, IfOk, IfSome, MatchOption, nat_lt};
ghost use Rattle.choosing.specs.Choice.{beside, group};
ghost use Rattle.choosing.specs.Parties.{party_of};
ghost use Rattle.pieces.specs.Counts.{tally_of};
ghost use Rattle.pieces.specs.Memory.{train_at, word_at};
ghost use Rattle.pieces.specs.Stretches.{holds};
ghost use Rattle.state.specs.States.{begun, same, place_of, place, is_open, was_closed, known, openable, holds_piece, has_given, kept, sold, tickets_left, asks_left, ticket_of};
ghost use Rattle.state.specs.Views.{view};

use super::{STATIONS, Station};
use choosing::choice::{choose_all_at, choose_beside_at, lowest_held_at};
use choosing::party::Party;
use giving::channels::Channels;
use giving::ids::{Ask, StationId, Ticket};
use pieces::memory::{Memory, PLACES, Slot};
use pieces::names::{Seat, Train};
use pieces::piece::Piece;
use pieces::stretch::Stretch;
use pieces::tally::Tally;
use pieces::trip::Trip;
use std::alloc::{AllocError, Global};

// No more trains may be closed, for a station to open one.
pub const MOST_CLOSED: usize = 65536;

impl Station {
    // Station `me` of so many, which has done nothing yet.
    pub fn new(heap: Global, me: StationId, stations: u16) -> Result<Station, AllocError>
        requires { stations ≤ 256 }
        ensures { IfOk result (λ s. view s ≡ begun stations me.0) }
    {
        let slots = vec![in heap; None; PLACES]?;
        let memory = Memory::new(heap)?;
        let channels = Channels::new(heap, me, stations)?;
        Ok(Station {
            slots,
            memory,
            ever_sold: [false; PLACES],
            ever_gave: [[false; STATIONS]; PLACES],
            closed: Vec::new(heap),
            dropped: 0,
            tickets: Vec::new(heap),
            asked: Ask(0),
            channels,
        })
    }

    pub fn me(&self) -> StationId
        ensures { result.0 ≡ (view self.now).me }
    {
        self.channels.me()
    }

    // How many stations there are.
    pub fn stations(&self) -> usize
        ensures value { result ≡ length (view self.now).channels }
        ensures few { result ≤ 256 }
    {
        self.channels.len()
    }

    pub fn channels(&self) -> &Channels
        ensures { result.now ≡ self.now.channels }
    {
        &self.channels
    }

    // The first slot of a train, or the first free one.
    pub fn slot(&self, train: Option<Train>) -> Option<Slot>
        ensures { MatchOption result (length (view self.now).slots ≤ place_of (view self.now).slots train)
            (λ slot. (place_of (view self.now).slots train < length (view self.now).slots) × (slot.index ≡ place_of (view self.now).slots train)) }
    {
        for (index, there) in self.slots.iter().enumerate() {
            if *there == train {
                return Slot::new(index);
            }
        }
        None
    }

    pub fn is_open(&self, train: Train) -> bool
        ensures { result ≡ is_open (view self.now) train }
    {
        self.slot(Some(train)).is_some()
    }

    pub fn was_closed(&self, train: Train) -> bool
        ensures { result ≡ was_closed (view self.now) train }
    {
        self.closed.contains(&train)
    }

    // Whether a train is open or was closed.
    pub fn is_known(&self, train: Train) -> bool
        ensures { result ≡ known (view self.now) train }
    {
        self.is_open(train) || self.was_closed(train)
    }

    // Whether a train more may be opened.
    pub fn is_openable(&self) -> bool
        ensures { result ≡ openable (view self.now) }
    {
        self.slot(None).is_some() && self.closed.len() < MOST_CLOSED
    }

    // Whether each stretch of a piece is held.
    pub fn holds_piece(&self, piece: Piece) -> bool
        ensures { result ≡ holds_piece (view self.now) piece }
    {
        let Some(slot) = self.slot(Some(piece.train)) else {
            return false;
        };
        self.memory.covers(slot, piece.seat, piece.trip)
    }

    // Whether a stretch of a seat of an open train is held.
    pub fn holds_stretch(&self, at: Stretch) -> bool
        ensures { result ≡ (nat_lt at.seat.0 400 && (is_open (view self.now) at.train && holds (word_at (view self.now).words (place (view self.now) at.train) at.seat.0) at.stop.0)) }
    {
        let Some(slot) = self.slot(Some(at.train)) else {
            return false;
        };
        self.memory.holds(slot, at.seat, at.stop)
    }

    // The seats for so many people on an open train with `count` seats, or for as many as there are, by the rule of choice.
    pub fn choose(&self, train: Train, count: u16, trip: Trip, people: u8) -> Party
        requires { (is_open (view self.now) train ≡ true) × ((count ≤ 400) × (people ≤ 8)) }
        ensures { result ≡ party_of train trip (group people (word_at (view self.now).words (place (view self.now) train)) count trip.from.0 trip.to.0) }
    {
        let slot = self.slot(Some(train)).unwrap();
        choose_all_at(&self.memory, slot, count, train, trip, people)
    }

    // Whether a piece of an open train was ever given to a station.
    pub fn has_given(&self, train: Train, to: StationId) -> bool
        ensures { result ≡ has_given (view self.now) train to }
    {
        self.slot(Some(train))
            .is_some_and(|slot| self.ever_gave[slot.index()][usize::from(to.0)])
    }

    // The seat of a train that is kept when another station asks.
    pub fn kept(&self, train: Train) -> Option<Seat>
        ensures value { result ≡ kept (view self.now) train }
        ensures near { IfSome result (λ seat. seat.0 < 400) }
    {
        let slot = self.slot(Some(train))?;
        if !self.ever_sold[slot.index()] {
            return None;
        }
        lowest_held_at(&self.memory, slot)
    }

    // The seats for so many people beside the one that is kept, or for as many as there are, by the rule of choice.
    pub fn choose_beside(&self, train: Train, count: u16, trip: Trip, people: u8) -> Party
        requires { (is_open (view self.now) train ≡ true) × ((count ≤ 400) × (people ≤ 8)) }
        ensures { result ≡ party_of train trip (group people (beside (kept (view self.now) train) (word_at (view self.now).words (place (view self.now) train))) count trip.from.0 trip.to.0) }
    {
        let slot = self.slot(Some(train)).unwrap();
        choose_beside_at(
            &self.memory,
            slot,
            count,
            self.kept(train),
            train,
            trip,
            people,
        )
    }

    // How much of an open train with so many stops is held.
    pub fn tally(&self, train: Train, stops: u8) -> Tally
        requires { (is_open (view self.now) train ≡ true) × ((2 ≤ stops) × (stops ≤ 30)) }
        ensures { result ≡ tally_of (stops - 1) (train_at (view self.now).words (place (view self.now) train)) }
    {
        let slot = self.slot(Some(train)).unwrap();
        self.memory.tally(slot, stops)
    }

    // The slots, each with the open train that has it.
    pub fn slots(&self) -> &[Option<Train>]
        ensures { result.now ≡ (view self.now).slots }
    {
        &self.slots
    }

    // How many tickets were ever sold.
    pub fn sold_count(&self) -> u32
        ensures { result ≡ sold (view self.now) }
    {
        self.dropped + self.tickets.len() as u32
    }

    // Whether a ticket more may be sold.
    pub fn tickets_left(&self) -> bool
        ensures { result ≡ tickets_left (view self.now) }
    {
        self.sold_count() < u32::MAX
    }

    // The number of the last ask that was made.
    pub fn asked(&self) -> Ask
        ensures { result.0 ≡ (view self.now).asked }
    {
        self.asked
    }

    // Whether a number is left for an ask.
    pub fn asks_left(&self) -> bool
        ensures { result ≡ asks_left (view self.now) }
    {
        self.asked.0 < u32::MAX
    }

    // The tickets that are kept, in the order of their numbers.
    pub fn tickets(&self) -> &[Option<Party>]
        ensures { result.now ≡ (view self.now).tickets }
    {
        &self.tickets
    }

    // The party of a ticket that stands.
    pub fn ticket(&self, n: Ticket) -> Option<Party>
        ensures { result ≡ ticket_of (view self.now) n.0 }
    {
        let at = n.0.checked_sub(self.dropped)?.checked_sub(1)?;
        *self.tickets.get(at as usize)?
    }
}
