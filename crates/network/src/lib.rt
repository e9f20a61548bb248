// Stations, each with its journal, and all that was ever said between them: each stretch of each seat is in one place.
#![tactic(auto)]

ghost use Rattle.network.specs.Promises.{OnePlace, NeverTwice, NumbersRise, OnlyWhatIs, SellsAlone, Sells, Gives, Undoes, AsksFirst, Grants, Keeps, KeepsNone, AnswersOnce, AnswersTrue, AsksRise, TellsTrue, Arrives, Remembers, Grows};
ghost use Rattle.network.specs.Lost.{LostListed};
ghost use Rattle.network.specs.Promised.{Everywhere};
ghost use Rattle.network.specs.Runs.{Runs};

pub mod place;

// Each seat of each train, on each stretch, is in exactly one place.
pub fn one_place_stands()
    ensures { OnePlace }
{}

// No stretch of a seat is sold twice.
pub fn never_twice_stands()
    ensures { NeverTwice }
{}

// A ticket's number is never used again.
pub fn numbers_rise_stands()
    ensures { NumbersRise }
{}

// Nothing is held or sold that the train has not.
pub fn only_what_is_stands()
    ensures { OnlyWhatIs }
{}

// A station that has a seat for each of the people sells them, without a message; one that has fewer sells none.
pub fn sells_alone_stands()
    ensures { SellsAlone }
{}

// A sale is made, or refused on the first ground that there is.
pub fn sells_stands()
    ensures { Sells }
{}

// A gift is made, of as many seats as there can be, or refused on the first ground that there is.
pub fn gives_stands()
    ensures { Gives }
{}

// A ticket that stands can be undone, once, and any other cannot.
pub fn undoes_stands()
    ensures { Undoes }
{}

// The first in turn is asked first.
pub fn asks_first_stands()
    ensures { AsksFirst }
{}

// An ask is answered, passed over or refused on the first ground that there is.
pub fn grants_stand()
    ensures { Grants }
{}

// Nobody gives the kept seat away to an ask.
pub fn keeps_stands()
    ensures { Keeps }
{}

// A station that never sold any of a train keeps no seat of it.
pub fn keeps_none_stands()
    ensures { KeepsNone }
{}

// An ask is answered at most once.
pub fn answers_once_stands()
    ensures { AnswersOnce }
{}

// What was given for an ask is what the answer says.
pub fn answers_true_stands()
    ensures { AnswersTrue }
{}

// The number of an ask is never used again.
pub fn asks_rise_stands()
    ensures { AsksRise }
{}

// What a station tells of a train is what it holds.
pub fn tells_true_stands()
    ensures { TellsTrue }
{}

// What is on its way arrives, by syncing, saying and taking alone.
pub fn arrives_stands()
    ensures { Arrives }
{}

// What is synced stands at the front of the journal ever after.
pub fn remembers_stands()
    ensures { Remembers }
{}

// A train of a station that lost its file is on the list of another one.
pub fn lost_listed_stands()
    ensures { LostListed }
{}

// All this is so of every site that is reached.
pub fn promises_stand()
    ensures { Everywhere }
{}

// Trains may be added to the timetable at any time.
pub fn grows_stands()
    ensures { Grows }
{}

// Whatever a station decides and says is a run of moves, and so is a fall in the midst of it.
pub fn runs_stand()
    ensures { Runs }
{}
