// What comes over a line: bytes as what they are to a station, and what becomes of them.
#![tactic(auto)]

ghost use Rattle.receiving.specs.Laws.{Judges, LowestWins};

pub mod incoming;
pub mod verdict;

// Of the refusals that apply the one with the lowest number wins.
pub fn lowest_wins_stands()
    ensures { LowestWins }
{}

// Whatever comes is taken, passed over or turned away as the refusals' table says.
pub fn judges_stands()
    ensures { Judges }
{}
