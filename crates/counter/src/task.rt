// What a line asks of a station.
ghost use Rattle.std.specs.Prelude.{◌≡◌};
ghost use Rattle.counter.specs.Tasks.{demand_of, task_of};

use crate::request::Request;
use giving::ids::{StationId, Ticket};
use pieces::demand::Demand;
use pieces::names::{Stop, Train};
use script::command::{Deed, Opening, Wish};
use script::values::byte;

#[derive(Clone, Copy, Drop)]
pub enum Task {
    // a train is opened, with its row
    Open(Opening),
    // the trains of a station that lost its file are listed
    Lost(StationId),
    Request(Request),
}

// The trip that so many people want.
fn demand(wish: Wish) -> Demand
    ensures { result ≡ demand_of wish }
{
    Demand {
        train: Train(wish.train),
        from: Stop(byte(wish.from)),
        to: Stop(byte(wish.to)),
        people: byte(wish.people),
    }
}

impl Task {
    // What a line asks of station `me`.
    pub fn of(deed: Deed, me: StationId) -> Task
        ensures { result ≡ task_of me deed }
    {
        match deed {
            Deed::Open(opening) => Task::Open(opening),
            Deed::Lost { other: who } => Task::Lost(StationId::other(who, me)),
            Deed::Close { train } => Task::Request(Request::Close(Train(train))),
            Deed::Sell(wish) => Task::Request(Request::Sell(demand(wish))),
            Deed::Undo { ticket } => Task::Request(Request::Undo(Ticket(ticket))),
            Deed::Give { to, wish } => Task::Request(Request::Give(
                StationId::other(to, me),
                demand(wish),
            )),
            Deed::Ask(wish) => Task::Request(Request::Ask(demand(wish))),
            Deed::Tick => Task::Request(Request::Tick),
        }
    }
}
