// What comes to a station, and what it came to.
ghost use Rattle.std.specs.Prelude.{◌≡◌};
ghost use Rattle.asking.specs.Events.{event_of};

use giving::ids::{Ask, StationId};
use giving::message::{Body, Message};
use ledger::input::{Input, Outcome};
use pieces::names::Train;
use pieces::tally::Tally;

#[derive(Clone, Copy, Drop)]
pub enum Event {
    // a call, or a message that goes by the lasting state alone
    Call(Input),
    // so many pieces are given by a station for an ask
    Answered(StationId, Ask, u8),
    // so much of a train is held by a station
    Told(StationId, Train, Tally),
    Tick,
    // bytes that are no message
    Garbled,
}

// What a message is to the station that it comes to.
impl From<Message> for Event {
    ghost from_gives = { λ m event. event ≡ event_of m.from m.body };

    fn from(message: Message) -> Event {
        let from = message.from;
        match message.body {
            Body::Given(number, piece) => Event::Call(Input::Take(from, number, piece)),
            Body::Taken(number) => Event::Call(Input::Hear(from, number)),
            Body::Asked(ask, demand) => Event::Call(Input::Grant(from, ask, demand)),
            Body::Answered(ask, count) => Event::Answered(from, ask, count),
            Body::Told(train, tally) => Event::Told(from, train, tally),
        }
    }
}

// What an event came to that was not refused.
#[derive(Clone, Copy, Drop)]
pub enum Reply {
    Came(Outcome),
    // others are asked in turn, this one first
    Asks(StationId),
    // it is kept in mind
    Noted,
    Ticked,
}
