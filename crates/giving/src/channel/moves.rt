// What happens on a channel.
ghost use Rattle.std.specs.Prelude.{◌≡◌, ℕ, ◌+◌, ◌-◌, ◌<◌, ◌≤◌, true, length, IfOk, MatchOption, ◌==◌, nat_le, slice_index_or};
ghost use Rattle.giving.specs.Channels.{chan, declined, fresh, gave, heard_to, numbered, news, stands, unanswered};
ghost use Rattle.giving.specs.Receipts.{Received};
ghost use Rattle.pieces.specs.Parts.{blank};

use super::Channel;
use crate::ids::{Ask, Number};
use crate::refusal::Refusal;
use pieces::piece::Piece;
use std::alloc::{AllocError, Global};
use std::cmp::Ordering;
use std::collections::VecDeque;

// So many pieces may wait at a station.
pub const MOST: usize = 4096;

impl Channel {
    // A channel has the memory for all that may wait from the start.
    pub fn new(heap: Global) -> Result<Channel, AllocError>
        ensures { IfOk result (λ c. chan c ≡ fresh) }
    {
        let waiting = VecDeque::with_capacity(heap, MOST)?;
        Ok(Channel {
            given: Number(0),
            heard: Number(0),
            taken: Number(0),
            answered: Ask(0),
            waiting,
        })
    }

    // Whether a number is left for a piece.
    pub fn is_numbered(&self) -> bool
        ensures { result ≡ numbered (chan self.now) }
    {
        self.given.0 < u32::MAX
    }

    // How many numbers are left for pieces.
    pub fn numbers_left(&self) -> u32
        ensures { result ≡ 4294967295 - (chan self.now).given }
    {
        u32::MAX - self.given.0
    }

    // The number that the next piece gets.
    pub fn next_number(&self) -> Number
        requires { numbered (chan self.now) ≡ true }
        ensures { result ≡ record { 0 = (chan self.now).given + 1 } }
    {
        Number(self.given.0 + 1)
    }

    // How a number of the other station's stands to the next one that is to be taken.
    pub fn standing(&self, number: Number) -> Ordering
        ensures { result ≡ stands (chan self.now) number.0 }
    {
        self.taken
            .next()
            .map_or(Ordering::Less, |next| number.cmp(&next))
    }

    pub fn is_next(&self, number: Number) -> bool
        ensures { result ≡ (number.0 == (chan self.now).taken + 1) }
    {
        self.taken.next() == Some(number)
    }

    // Whether the other station may acknowledge up to a number, and has not yet.
    pub fn is_news(&self, number: Number) -> bool
        ensures { result ≡ news (chan self.now) number.0 }
    {
        self.heard < number && number <= self.given
    }

    pub fn was_given(&self, number: Number) -> bool
        ensures { result ≡ nat_le number.0 (chan self.now).given }
    {
        number <= self.given
    }

    // How many pieces wait.
    pub fn waiting_len(&self) -> usize
        ensures { result ≡ length (chan self.now).waiting }
    {
        self.waiting.len()
    }

    // The piece at a place of those that wait, under its number.
    pub fn waiting_at(&self, place: usize) -> Option<(Number, Piece)>
        ensures { MatchOption result (length (chan self.now).waiting ≤ place) (λ q. (place < length (chan self.now).waiting) × (q.0 ≡ record { 0 = (chan self.now).heard + 1 + place }) × (q.1 ≡ slice_index_or (chan self.now).waiting place blank)) }
    {
        let piece = self.waiting.get(place)?;
        Some((self.number_at(place), *piece))
    }

    // The pieces that wait, in the order of their numbers.
    pub fn waiting(&self) -> &VecDeque<Piece>
        ensures { result.now.items ≡ (chan self.now).waiting }
    {
        &self.waiting
    }

    // The number of the piece at a place of those that wait.
    pub fn number_at(&self, place: usize) -> Number
        requires { place < length (chan self.now).waiting }
        ensures { result ≡ record { 0 = (chan self.now).heard + 1 + place } }
    {
        Number(self.heard.0 + 1 + place as u32)
    }

    // The last number that was used for a piece.
    pub fn given_to(&self) -> Number
        ensures { result ≡ record { 0 = (chan self.now).given } }
    {
        self.given
    }

    // Up to which number the other station's pieces are taken.
    pub fn taken_to(&self) -> Number
        ensures { result ≡ record { 0 = (chan self.now).taken } }
    {
        self.taken
    }

    // Up to which number the other station has acknowledged.
    pub fn heard_to(&self) -> Number
        ensures { result ≡ record { 0 = (chan self.now).heard } }
    {
        self.heard
    }

    // The latest of the other station's asks that were answered.
    pub fn answered_to(&self) -> Ask
        ensures { result ≡ record { 0 = (chan self.now).answered } }
    {
        self.answered
    }

    // Whether an ask of the other station's is later than all that were answered.
    pub fn is_unanswered(&self, ask: Ask) -> bool
        ensures { result ≡ unanswered (chan self.now) ask.0 }
    {
        self.answered < ask
    }

    // Uses up the next number for a piece, which then waits.
    pub fn give(&mut self, ask: Ask, piece: Piece)
        requires numbered { numbered (chan self.old) ≡ true }
        requires room { length (chan self.old).waiting < 4096 }
        ensures { chan self.new ≡ gave (chan self.old) ask.0 piece }
    {
        let number = self.next_number();
        self.waiting.push_back(piece).unwrap();
        self.given = number;
        self.answered = self.answered.max(ask);
    }

    // Answers an ask with nothing.
    pub fn decline(&mut self, ask: Ask)
        ensures { chan self.new ≡ declined (chan self.old) ask.0 }
    {
        self.answered = self.answered.max(ask);
    }

    // Lets go of the pieces up to a number that the other station acknowledges.
    pub fn hear(&mut self, up_to: Number)
        requires { up_to.0 ≤ (chan self.old).given }
        ensures { chan self.new ≡ heard_to (chan self.old) up_to.0 }
    {
        let count = up_to.0.saturating_sub(self.heard.0);
        self.waiting.drain(..count as usize);
        self.heard = self.heard.max(up_to);
    }

    // Takes the other station's next number; one that was taken or comes later is refused.
    pub fn receive(&mut self, number: Number) -> Result<(), Refusal>
        ensures { Received (chan self.old) number.0 (chan self.new) result }
    {
        let next = self.taken.next().ok_or(Refusal::OutOfTurn)?;
        match number.cmp(&next) {
            Ordering::Equal => {
                self.taken = next;
                Ok(())
            }
            _ => Err(Refusal::OutOfTurn),
        }
    }
}
