// The seats of all open trains in one memory: 64 slots, with 400 words each.
ghost use Rattle.std.specs.Prelude.{◌≡◌, ℕ, ◌<◌, ◌≤◌, ◌*◌, ◌+◌, ◌-◌, ◌&&◌, replicate, length, nat_lt, slice_index, vec_len, IfOk, MatchOption};
ghost use Rattle.std.specs.List.{AllByRecursion};
ghost use Rattle.pieces.specs.Counts.{tally_of};
ghost use Rattle.pieces.specs.Memory.{word_at, train_at, altered, altered_all, seated, placed};
ghost use Rattle.pieces.specs.Stretches.{holds, covered};
ghost use Rattle.pieces.specs.declared.names.Seat.{Seat as Chair};

use crate::change::Change;
use crate::names::{Seat, Stop};
use crate::tally::Tally;
use crate::trip::Trip;
use crate::words;
use std::alloc::{AllocError, Global};
use std::ops::Range;

mod lent;

pub use lent::{
    change_all_at, change_at, covers_at, holds_at, open_at, put_in_all_at, put_in_at,
    take_out_all_at, take_out_at,
};

pub const SEATS: usize = 400;

pub const PLACES: usize = 64;

// Where the seats of an open train stand.
#[derive(Clone, Copy, Debug, PartialEq, Eq, Drop)]
pub struct Slot {
    index: usize,
    ghost few: { index < 64 },
}

impl Slot {
    // None from 64 on.
    pub fn new(index: usize) -> Option<Slot>
        ensures { MatchOption result (64 ≤ index) (λ slot. slot.index ≡ index) }
    {
        if index < PLACES {
            Some(Slot { index })
        } else {
            None
        }
    }

    pub fn index(self) -> usize
        ensures { result ≡ self.index }
    {
        self.index
    }

    // Where the words of the train stand.
    fn range(self) -> Range<usize>
        ensures { (result.start ≡ self.index * 400) × (result.end ≡ self.index * 400 + 400) }
    {
        let first = self.index * SEATS;
        first..first + SEATS
    }
}

#[derive(Drop)]
pub struct Memory {
    words: Vec<u64>,
    ghost whole: { vec_len words ≡ 25600 },
}

impl Memory {
    // Nothing is held.
    pub fn new(heap: Global) -> Result<Memory, AllocError>
        ensures { IfOk result (λ memory. memory.words.items ≡ replicate 25600 0) }
    {
        let words = vec![in heap; 0; PLACES * SEATS]?;
        Ok(Memory { words })
    }

    // The words of the seats of one train.
    pub fn train(&self, slot: Slot) -> &[u64]
        ensures value { result.now ≡ train_at self.now.words.items slot.index }
        ensures long { length result.now ≡ 400 }
        ensures each { (s : ℕ) → s < 400 → slice_index result.now s ≡ word_at self.now.words.items slot.index s }
    {
        &self.words[slot.range()]
    }

    // Changes the stretches of a trip of one seat.
    pub fn change<C: Change>(&mut self, slot: Slot, seat: Seat, trip: Trip)
        requires { seat.0 < 400 }
        ensures { self.new.words.items ≡ altered C.changed self.old.words.items slot.index seat.0 trip.from.0 trip.to.0 }
    {
        change_at::<C>(&mut self.words, slot.index, seat, trip);
    }

    // Changes them of several seats, one after the other.
    pub fn change_all<C: Change>(&mut self, slot: Slot, seats: &[Seat], trip: Trip)
        requires { AllByRecursion (λ (s : Chair). s.0 < 400) seats.now }
        ensures { self.new.words.items ≡ altered_all C.changed self.old.words.items slot.index seats.now trip.from.0 trip.to.0 }
    {
        change_all_at::<C>(&mut self.words, slot.index, seats, trip);
    }

    // Gives each of the `count` seats of a train the same word.
    pub fn open(&mut self, slot: Slot, count: u16, word: u64)
        requires { count ≤ 400 }
        ensures { self.new.words.items ≡ placed self.old.words.items slot.index (seated count word) }
    {
        open_at(&mut self.words, slot.index, count, word);
    }

    // Whether a seat covers the trip.
    pub fn covers(&self, slot: Slot, seat: Seat, trip: Trip) -> bool
        ensures { result ≡ (nat_lt seat.0 400 && covered (word_at self.now.words.items slot.index seat.0) trip.from.0 trip.to.0) }
    {
        self.train(slot)
            .get(usize::from(seat.0))
            .is_some_and(|word| words::covers(*word, trip))
    }

    // Whether a seat holds the stretch from a stop to the next.
    pub fn holds(&self, slot: Slot, seat: Seat, stop: Stop) -> bool
        ensures { result ≡ (nat_lt seat.0 400 && holds (word_at self.now.words.items slot.index seat.0) stop.0) }
    {
        self.train(slot)
            .get(usize::from(seat.0))
            .is_some_and(|word| words::held(*word, stop))
    }

    // How much of a train with so many stops is held.
    pub fn tally(&self, slot: Slot, stops: u8) -> Tally
        requires { (2 ≤ stops) × (stops ≤ 30) }
        ensures { result ≡ tally_of (stops - 1) (train_at self.now.words.items slot.index) }
    {
        Tally::count(self.train(slot), stops)
    }
}
