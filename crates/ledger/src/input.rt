// What a station is asked, and what a call came to.
use choosing::party::Party;
use giving::ids::{Ask, Number, StationId, Ticket};
use giving::refusal::Refusal;
use pieces::demand::Demand;
use pieces::names::Train;
use pieces::piece::Piece;
use state::record::Record;

// What a station is asked at its counter or by another station, or told by another, where it goes by its lasting state alone.
#[derive(Clone, Copy, Drop)]
pub enum Input {
    Close(Train),
    Sell(Demand),
    Undo(Ticket),
    Give(StationId, Demand),
    Take(StationId, Number, Piece),
    Hear(StationId, Number),
    // others are to be asked for pieces
    Ask(Demand),
    // another asks for pieces, under the number of its ask
    Grant(StationId, Ask, Demand),
}

// What a call came to that was not refused.
#[derive(Clone, Copy, Drop)]
pub enum Outcome {
    Done(Record),
    // the pieces of a party were given to a station, under the numbers from this one on, for an ask of its or for none; there may be no piece
    Gave(StationId, Number, Ask, Party),
    // there was nothing to do: it was heard before
    Nothing,
    // passed over, by the number of the refusal
    Passed(Refusal),
}
