// What a station is asked at its counter, or told by its clock.
ghost use Rattle.std.specs.Prelude.{◌≡◌};
ghost use Rattle.counter.specs.Requests.{requested};

use asking::event::Event;
use giving::ids::{StationId, Ticket};
use ledger::input::Input;
use pieces::demand::Demand;
use pieces::names::Train;

#[derive(Clone, Copy, Drop)]
pub enum Request {
    Close(Train),
    Sell(Demand),
    Undo(Ticket),
    Give(StationId, Demand),
    // for pieces of other stations
    Ask(Demand),
    Tick,
}

impl From<Request> for Event {
    ghost from_gives = { λ request event. event ≡ requested request };

    fn from(request: Request) -> Event {
        match request {
            Request::Close(train) => Event::Call(Input::Close(train)),
            Request::Sell(demand) => Event::Call(Input::Sell(demand)),
            Request::Undo(ticket) => Event::Call(Input::Undo(ticket)),
            Request::Give(to, demand) => Event::Call(Input::Give(to, demand)),
            Request::Ask(demand) => Event::Call(Input::Ask(demand)),
            Request::Tick => Event::Tick,
        }
    }
}
