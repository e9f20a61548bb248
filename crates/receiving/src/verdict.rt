// What becomes of what comes over a line.
ghost use Rattle.std.specs.Prelude.{◌≡◌, Some};
ghost use Rattle.receiving.specs.Verdicts.{verdict_of, verdict_text};

use asking::event::Reply;
use giving::refusal::Refusal;
use ledger::input::Outcome;
use std::fmt;

#[derive(Clone, Copy, Debug, PartialEq, Eq, Drop)]
pub enum Verdict {
    Taken,
    // there is nothing new in it; or it is not taken now, by the number of a refusal
    Passed(Option<Refusal>),
    TurnedAway(Refusal),
}

impl Verdict {
    // What a response says of it.
    pub fn of(response: Result<Reply, Refusal>) -> Verdict
        ensures { result ≡ verdict_of response }
    {
        match response {
            Ok(Reply::Came(Outcome::Nothing)) => Verdict::Passed(None),
            Ok(Reply::Came(Outcome::Passed(refusal))) => Verdict::Passed(Some(refusal)),
            Ok(_) => Verdict::Taken,
            Err(refusal) => Verdict::TurnedAway(refusal),
        }
    }
}

impl fmt::Display for Verdict {
    ghost output = { λ v. Some (verdict_text v) };

    fn fmt<W: fmt::Write>(&self, f: &mut fmt::Formatter<W>) -> fmt::Result {
        match self {
            Verdict::Taken => f.write_str("taken"),
            Verdict::Passed(None) => f.write_str("passed"),
            Verdict::Passed(Some(refusal)) => write!(f, "passed {refusal}"),
            Verdict::TurnedAway(refusal) => write!(f, "no {refusal}"),
        }
    }
}
