// Asking other stations in turn, and telling them: what a station keeps in mind, which is gone after a fall.
#![tactic(auto)]

ghost use Rattle.asking.specs.Laws.{ByNumber, InTurn, LastTold};
ghost use Rattle.asking.specs.Rounds.{GoesRound};

pub mod desk;
pub mod event;
mod order;
pub mod told;

// What a station has told last of a train is known, until the train is closed.
pub fn last_told_stands()
    ensures { LastTold }
{}

// Each other station is asked once: the one that has told of most seats first, and of those that have told of as many the one with the lowest number.
pub fn asks_in_turn_stands()
    ensures { InTurn }
{}

// The next in turn is asked for what is still wanted, until nothing is or nobody is left.
pub fn goes_round_stands()
    ensures { GoesRound }
{}

// Just the open trains that the timetable has are told of, by number.
pub fn trains_by_number_stand()
    ensures { ByNumber }
{}
