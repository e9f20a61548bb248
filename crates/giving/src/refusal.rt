// Why something is refused.
ghost use Rattle.std.specs.Prelude.{◌≡◌, Option, Some};
ghost use Rattle.giving.specs.Refusals.{number, printed};
ghost use Rattle.giving.specs.declared.refusal.Refusal.TheVariants.{Memory};

use std::alloc::{AllocError, AllocFailed};
use std::fmt;

#[derive(Clone, Copy, Debug, PartialEq, Eq, Drop)]
pub enum Refusal {
    // a stop or a seat that the train has not, a stretch that is none, nobody or more than eight; more acknowledged than was given
    Malformed,
    // a number that is not the next
    OutOfTurn,
    // a train that is not open; for an opening, one that is or was
    NotOpen,
    // fewer seats held for that trip than people
    NothingHeld,
    NoSuchTicket,
    // no place for a train, a number or a piece that waits
    Full,
    // a station that is not there, or itself
    NoSuchStation,
    // want of memory, which has no number
    Memory,
}

impl Refusal {
    // The number by which a refusal goes.
    pub fn number(self) -> Option<u8>
        ensures { result ≡ number self }
    {
        match self {
            Refusal::Malformed => Some(1),
            Refusal::OutOfTurn => Some(2),
            Refusal::NotOpen => Some(3),
            Refusal::NothingHeld => Some(4),
            Refusal::NoSuchTicket => Some(5),
            Refusal::Full => Some(6),
            Refusal::NoSuchStation => Some(7),
            Refusal::Memory => None,
        }
    }
}

impl fmt::Display for Refusal {
    ghost output = { λ r. Some (printed r) };

    fn fmt<W: fmt::Write>(&self, f: &mut fmt::Formatter<W>) -> fmt::Result {
        match self.number() {
            Some(number) => write!(f, "{number}"),
            None => f.write_str("memory"),
        }
    }
}

impl From<AllocError> for Refusal {
    ghost from_gives = { λ _ r. r ≡ Memory };

    fn from(_error: AllocError) -> Refusal {
        Refusal::Memory
    }
}

impl<T: Drop> From<AllocFailed<T>> for Refusal {
    ghost from_gives = { λ _ r. r ≡ Memory };

    fn from(_failed: AllocFailed<T>) -> Refusal {
        Refusal::Memory
    }
}
