// The calls on the channels of a station.
#![tactic(auto, using(crate::proofs::Mapped::mapped))]

ghost use Rattle.std.specs.Prelude.{◌≡◌};
ghost use Rattle.giving.specs.Calls.{gives, after_give, declines, after_decline, hears, after_hear, receives, after_receive};
ghost use Rattle.giving.specs.Posts.{chans};

use super::Channels;
use crate::ids::{Ask, Number, StationId};
use crate::refusal::Refusal;
use pieces::piece::Piece;

impl Channels {
    // Gives a piece to another station, for an ask of its or for none: it gets the next number, and waits until that station has heard of it.
    pub fn give(&mut self, to: StationId, ask: Ask, piece: Piece) -> Result<Number, Refusal>
        ensures answer { result ≡ gives self.old.me.0 (chans self.old) to.0 }
        ensures after { chans self.new ≡ after_give self.old.me.0 (chans self.old) to.0 ask.0 piece }
        ensures me { self.new.me ≡ self.old.me }
    {
        if !self.is_roomy() || !self.is_numbered(to) {
            return Err(Refusal::Full);
        }
        if !self.is_other(to) {
            return Err(Refusal::NoSuchStation);
        }
        let number = self.next_number(to);
        self.lines[usize::from(to.0)].give(ask, piece);
        self.waiting += 1;
        Ok(number)
    }

    // Answers an ask of another station's with nothing.
    pub fn decline(&mut self, to: StationId, ask: Ask) -> Result<(), Refusal>
        ensures answer { result ≡ declines self.old.me.0 (chans self.old) to.0 }
        ensures after { chans self.new ≡ after_decline self.old.me.0 (chans self.old) to.0 ask.0 }
        ensures me { self.new.me ≡ self.old.me }
    {
        if !self.is_other(to) {
            return Err(Refusal::NoSuchStation);
        }
        self.lines[usize::from(to.0)].decline(ask);
        Ok(())
    }

    // Another station has taken all up to a number: what waits up to it is let go. Says whether that was news.
    pub fn hear(&mut self, from: StationId, up_to: Number) -> Result<bool, Refusal>
        ensures answer { result ≡ hears self.old.me.0 (chans self.old) from.0 up_to.0 }
        ensures after { chans self.new ≡ after_hear self.old.me.0 (chans self.old) from.0 up_to.0 }
        ensures me { self.new.me ≡ self.old.me }
    {
        if !self.was_given(from, up_to) {
            return Err(Refusal::Malformed);
        }
        if !self.is_other(from) {
            return Err(Refusal::NoSuchStation);
        }
        if !self.is_news(from, up_to) {
            return Ok(false);
        }
        let channel = &mut self.lines[usize::from(from.0)];
        let before = channel.waiting_len();
        channel.hear(up_to);
        self.waiting -= before - channel.waiting_len();
        Ok(true)
    }

    // Takes the next number of another station.
    pub fn receive(&mut self, from: StationId, number: Number) -> Result<(), Refusal>
        ensures answer { result ≡ receives self.old.me.0 (chans self.old) from.0 number.0 }
        ensures after { chans self.new ≡ after_receive self.old.me.0 (chans self.old) from.0 number.0 }
        ensures me { self.new.me ≡ self.old.me }
    {
        if !self.is_other(from) {
            return Err(Refusal::NoSuchStation);
        }
        self.lines[usize::from(from.0)].receive(number)
    }
}
