// What a station writes down.
use choosing::party::Party;
use giving::ids::{Ask, Number, StationId, Ticket};
use pieces::names::Train;
use pieces::piece::Piece;

// Every change of a station's lasting state.
#[derive(Clone, Copy, Drop)]
pub enum Record {
    Opened(Train),
    Closed(Train),
    Sold(Ticket, Party),
    Undone(Ticket),
    // given to a station, under a number, for an ask of its or for none
    Given(StationId, Number, Ask, Piece),
    // taken from a station, under its number
    Taken(StationId, Number, Piece),
    // a station has taken all up to a number
    Heard(StationId, Number),
    // other stations are asked for pieces, under this number
    Asked(Ask),
    // an ask of a station's is answered with nothing
    Declined(StationId, Ask),
}
