// What the channels of a station say.
ghost use Rattle.std.specs.Prelude.{◌≡◌, ℕ, ◌+◌, ◌<◌, ◌≤◌, true, length, replicate, IfOk, MatchOption, ◌==◌, nat_le, slice_index_or};
ghost use Rattle.giving.specs.Calls.{room};
ghost use Rattle.giving.specs.Channels.{all_waiting, chan, fresh, line, other, numbered, news, roomy, stands, unanswered};
ghost use Rattle.giving.specs.Posts.{chans};
ghost use Rattle.pieces.specs.Parts.{blank};

use super::Channels;
use crate::channel::Channel;
use crate::channel::moves::MOST;
use crate::ids::{Ask, Number, StationId};
use pieces::piece::Piece;
use std::alloc::{AllocError, Global};
use std::cmp::Ordering;

impl Channels {
    // The channels of station `me` to each of so many stations, none of them used yet.
    pub fn new(heap: Global, me: StationId, stations: u16) -> Result<Channels, AllocError>
        requires { stations ≤ 256 }
        ensures { IfOk result (λ c. (chans c ≡ replicate stations fresh) × (c.me ≡ me)) }
    {
        let mut lines = Vec::new(heap);
        for _ in 0..stations {
            lines.push(Channel::new(heap)?)?;
        }
        Ok(Channels {
            me,
            lines,
            waiting: 0,
        })
    }

    // How many stations there are: no more than have a number.
    pub fn len(&self) -> usize
        ensures value { result ≡ length (chans self.now) }
        ensures few { result ≤ 256 }
    {
        self.lines.len()
    }

    // The station's own number.
    pub fn me(&self) -> StationId
        ensures { result ≡ self.now.me }
    {
        self.me
    }

    // Whether a station is there, and not this one itself.
    pub fn is_other(&self, who: StationId) -> bool
        ensures { result ≡ other self.now.me.0 (chans self.now) who.0 }
    {
        usize::from(who.0) < self.len() && who != self.me
    }

    // The channel to a station, if it is there.
    pub fn channel(&self, who: StationId) -> Option<&Channel>
        ensures { MatchOption result ((length (chans self.now) ≤ who.0) × (line (chans self.now) who.0 ≡ fresh)) (λ c. (who.0 < length (chans self.now)) × (line (chans self.now) who.0 ≡ chan c.now)) }
    {
        self.lines.get(usize::from(who.0))
    }

    // Whether a piece more may wait.
    pub fn is_roomy(&self) -> bool
        ensures { result ≡ roomy (chans self.now) }
    {
        self.waiting < MOST
    }

    // Whether a number is left for a piece to a station.
    pub fn is_numbered(&self, to: StationId) -> bool
        ensures { result ≡ numbered (line (chans self.now) to.0) }
    {
        self.channel(to).is_none_or(|channel| channel.is_numbered())
    }

    // How many pieces more may be given to a station.
    pub fn room(&self, to: StationId) -> u32
        ensures { result ≡ room (chans self.now) to.0 }
    {
        let left = (MOST - self.waiting) as u32;
        self.channel(to)
            .map_or(left, |channel| left.min(channel.numbers_left()))
    }

    // The number that the next piece to a station gets.
    pub fn next_number(&self, to: StationId) -> Number
        requires { numbered (line (chans self.now) to.0) ≡ true }
        ensures { result ≡ record { 0 = (line (chans self.now) to.0).given + 1 } }
    {
        self.channel(to)
            .map_or(Number(1), |channel| channel.next_number())
    }

    // How a number of a station's stands to the next one that is to be taken.
    pub fn standing(&self, from: StationId, number: Number) -> Ordering
        ensures { result ≡ stands (line (chans self.now) from.0) number.0 }
    {
        self.channel(from)
            .map_or(number.cmp(&Number(1)), |channel| channel.standing(number))
    }

    // Whether a number is the next one of a station's.
    pub fn is_next(&self, from: StationId, number: Number) -> bool
        ensures { result ≡ (number.0 == (line (chans self.now) from.0).taken + 1) }
    {
        self.channel(from)
            .map_or(number.0 == 1, |channel| channel.is_next(number))
    }

    // Whether a station may acknowledge up to a number, and has not yet.
    pub fn is_news(&self, from: StationId, number: Number) -> bool
        ensures { result ≡ news (line (chans self.now) from.0) number.0 }
    {
        self.channel(from)
            .is_some_and(|channel| channel.is_news(number))
    }

    // Whether a piece was given to a station under a number or a later one; so 0 always was.
    pub fn was_given(&self, from: StationId, number: Number) -> bool
        ensures { result ≡ nat_le number.0 (line (chans self.now) from.0).given }
    {
        self.channel(from)
            .map_or(number.0 == 0, |channel| channel.was_given(number))
    }

    // The last number that was used for a piece to a station.
    pub fn given_to(&self, to: StationId) -> Number
        ensures { result ≡ record { 0 = (line (chans self.now) to.0).given } }
    {
        self.channel(to)
            .map_or(Number(0), |channel| channel.given_to())
    }

    // Up to which number a station's pieces are taken.
    pub fn taken_from(&self, from: StationId) -> Number
        ensures { result ≡ record { 0 = (line (chans self.now) from.0).taken } }
    {
        self.channel(from)
            .map_or(Number(0), |channel| channel.taken_to())
    }

    // Up to which number a station has acknowledged.
    pub fn heard_from(&self, to: StationId) -> Number
        ensures { result ≡ record { 0 = (line (chans self.now) to.0).heard } }
    {
        self.channel(to)
            .map_or(Number(0), |channel| channel.heard_to())
    }

    // The latest ask of a station's that was answered.
    pub fn answered_to(&self, from: StationId) -> Ask
        ensures { result ≡ record { 0 = (line (chans self.now) from.0).answered } }
    {
        self.channel(from)
            .map_or(Ask(0), |channel| channel.answered_to())
    }

    // Whether an ask of a station's is later than all of its that were answered.
    pub fn is_unanswered(&self, from: StationId, ask: Ask) -> bool
        ensures { result ≡ unanswered (line (chans self.now) from.0) ask.0 }
    {
        self.channel(from)
            .map_or(ask.0 > 0, |channel| channel.is_unanswered(ask))
    }

    // How many pieces wait for all stations together.
    pub fn waiting_in_all(&self) -> usize
        ensures { result ≡ all_waiting (chans self.now) }
    {
        self.waiting
    }

    // How many pieces wait for a station.
    pub fn waiting_for(&self, to: StationId) -> usize
        ensures { result ≡ length (line (chans self.now) to.0).waiting }
    {
        self.channel(to).map_or(0, |channel| channel.waiting_len())
    }

    // The piece at a place of those that wait for a station, under its number.
    pub fn waiting_at(&self, to: StationId, place: usize) -> Option<(Number, Piece)>
        ensures { MatchOption result (length (line (chans self.now) to.0).waiting ≤ place) (λ q. (place < length (line (chans self.now) to.0).waiting) × (q.0 ≡ record { 0 = (line (chans self.now) to.0).heard + 1 + place }) × (q.1 ≡ slice_index_or (line (chans self.now) to.0).waiting place blank)) }
    {
        self.channel(to)
            .and_then(|channel| channel.waiting_at(place))
    }
}
