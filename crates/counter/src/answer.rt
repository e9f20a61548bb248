// What is answered to a line.
ghost use Rattle.counter.specs.Answers.{answer_text, outcome_text};
ghost use Rattle.std.specs.Prelude.{Some};

use asking::event::Reply;
use giving::ids::Ask;
use giving::refusal::Refusal;
use ledger::input::Outcome;
use receiving::verdict::Verdict;
use state::record::Record;
use std::fmt;

// The answer to what is no command, and where a station is meant that is not there.
pub const NO_COMMAND: &str = "no 1\n";

// What a station answers.
#[derive(Clone, Copy, Drop)]
pub struct Answer(pub Result<Reply, Refusal>);

impl fmt::Display for Answer {
    ghost output = { λ a. Some (answer_text a.0) };

    fn fmt<W: fmt::Write>(&self, f: &mut fmt::Formatter<W>) -> fmt::Result {
        match self.0 {
            Ok(Reply::Came(outcome)) => write!(f, "{}", Came(outcome)),
            Ok(Reply::Asks(first)) => write!(f, "asked {first}"),
            Ok(Reply::Ticked) => f.write_str("tick"),
            response => write!(f, "{}", Verdict::of(response)),
        }
    }
}

// What a call came to that was not refused.
#[derive(Clone, Copy, Drop)]
struct Came(Outcome);

impl fmt::Display for Came {
    ghost output = { λ c. Some (outcome_text c.0) };

    fn fmt<W: fmt::Write>(&self, f: &mut fmt::Formatter<W>) -> fmt::Result {
        match self.0 {
            Outcome::Done(Record::Opened(train)) => write!(f, "opened {train}"),
            Outcome::Done(Record::Closed(train)) => write!(f, "closed {train}"),
            Outcome::Done(Record::Sold(ticket, party)) => write!(f, "ticket {ticket} {party}"),
            Outcome::Done(Record::Undone(ticket)) => write!(f, "undone {ticket}"),
            Outcome::Gave(to, _, Ask(0), party) => write!(f, "gave {to} {}", party.len()),
            outcome => write!(f, "{}", Verdict::of(Ok(Reply::Came(outcome)))),
        }
    }
}
