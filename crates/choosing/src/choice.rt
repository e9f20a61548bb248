// The rule of choice.
ghost use Rattle.std.specs.Prelude.{◌≡◌, ◌<◌, ◌≤◌, ◌==◌, length, IfSome, slice_index};
ghost use Rattle.std.specs.List.{list_any};
ghost use Rattle.choosing.specs.Choice.{Chosen, beside, chosen, drawn_all, group, lowest};
ghost use Rattle.choosing.specs.Parties.{party_of};
ghost use Rattle.pieces.specs.Memory.{word_at};
ghost use Rattle.pieces.specs.declared.names.Seat.{Seat as Chair};

use crate::party::Party;
use pieces::memory::{Memory, SEATS, Slot};
use pieces::names::{Seat, Train};
use pieces::trip::Trip;
use pieces::words::leftover;

// Of the seats that cover the trip, when it was taken out of some already, the one that leaves least beside it, and of these the lowest.
pub fn choose(words: &[u64], trip: Trip, taken: &[Seat]) -> Option<Seat>
    requires { length words.now ≤ 400 }
    ensures value { result ≡ chosen (drawn_all (λ k. slice_index words.now k) trip.from.0 trip.to.0 taken.now) (length words.now) trip.from.0 trip.to.0 }
    ensures best { Chosen (drawn_all (λ k. slice_index words.now k) trip.from.0 trip.to.0 taken.now) (length words.now) trip.from.0 trip.to.0 result }
{
    let mut best = None;
    // More than any seat leaves.
    let mut least = 30;
    'seats: for (index, word) in words.iter().enumerate() {
        let Some(left) = leftover(*word, trip) else {
            continue 'seats;
        };
        let seat = Seat(index as u16);
        if left < least && !is_taken(taken, seat) {
            best = Some(seat);
            least = left;
            if left == 0 {
                break 'seats;
            }
        }
    }
    best
}

// Whether a seat is taken already: by a plain loop, since with `contains` the search above is compiled anew for each size of party, and slower.
pub(crate) fn is_taken(taken: &[Seat], seat: Seat) -> bool
    ensures value { result ≡ list_any (λ (s : Chair). s.0 == seat.0) taken.now }
{
    for other in taken {
        if *other == seat {
            return true;
        }
    }
    false
}

// The seats for so many people, or for as many as there are: for each by the rule, given what those before took.
// A copy for each caller: as one function for a sale and for an ask it makes a sale slower.
#[inline(always)]
pub fn choose_all(words: &[u64], train: Train, trip: Trip, people: u8) -> Party
    requires { (length words.now ≤ 400) × (people ≤ 8) }
    ensures { result ≡ party_of train trip (group people (λ k. slice_index words.now k) (length words.now) trip.from.0 trip.to.0) }
{
    let mut party = Party::new(train, trip);
    for _ in 0..people {
        let Some(seat) = choose(words, trip, party.seats()) else {
            break;
        };
        party.push(seat);
    }
    party
}

// The same of the train with `count` seats at a slot of the memory.
pub fn choose_all_at(
    memory: &Memory,
    slot: Slot,
    count: u16,
    train: Train,
    trip: Trip,
    people: u8,
) -> Party
    requires { (count ≤ 400) × (people ≤ 8) }
    ensures { result ≡ party_of train trip (group people (word_at memory.now.words.items slot.index) count trip.from.0 trip.to.0) }
{
    let words = &memory.train(slot)[..usize::from(count)];
    choose_all(words, train, trip, people)
}

// The same of the train with `count` seats at a place of a memory that is lent as one slice.
pub fn choose_all_lent(
    all: &[u64],
    place: usize,
    count: u16,
    train: Train,
    trip: Trip,
    people: u8,
) -> Party
    requires { (length all.now ≡ 25600) × ((place < 64) × ((count ≤ 400) × (people ≤ 8))) }
    ensures { result ≡ party_of train trip (group people (word_at all.now place) count trip.from.0 trip.to.0) }
{
    let first = place * SEATS;
    choose_all(&all[first..first + usize::from(count)], train, trip, people)
}

// The lowest seat of which anything is held.
pub fn lowest_held(words: &[u64]) -> Option<Seat>
    requires { length words.now ≤ 400 }
    ensures { result ≡ lowest (λ k. slice_index words.now k) (length words.now) }
{
    let index = words.iter().position(|word| *word != 0)?;
    Some(Seat(index as u16))
}

// The same of the train at a slot of the memory.
pub fn lowest_held_at(memory: &Memory, slot: Slot) -> Option<Seat>
    ensures value { result ≡ lowest (word_at memory.now.words.items slot.index) 400 }
    ensures near { IfSome result (λ s. s.0 < 400) }
{
    lowest_held(memory.train(slot))
}

// The seats for so many people of the train with `count` seats at a slot, when one seat is kept back.
pub fn choose_beside_at(
    memory: &Memory,
    slot: Slot,
    count: u16,
    kept: Option<Seat>,
    train: Train,
    trip: Trip,
    people: u8,
) -> Party
    requires { (count ≤ 400) × (people ≤ 8) × IfSome kept (λ s. s.0 < 400) }
    ensures { result ≡ party_of train trip (group people (beside kept (word_at memory.now.words.items slot.index)) count trip.from.0 trip.to.0) }
{
    let mut words = [0; SEATS];
    words.copy_from_slice(memory.train(slot));
    if let Some(seat) = kept {
        words[usize::from(seat.0)] = 0;
    }
    choose_all(&words[..usize::from(count)], train, trip, people)
}
