// Which seat is taken for a trip, and which seats for several people.
#![tactic(auto)]

ghost use Rattle.choosing.specs.Laws.{Choices};

pub mod choice;
pub mod covers;
pub mod party;
#[cfg(test)]
mod tests;

// The rule has exactly one choice, and takes as many seats as can be taken.
pub fn choices_stand()
    ensures { Choices }
{}
