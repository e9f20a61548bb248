// What a station says of a call, once it is done.
ghost use Rattle.std.specs.Prelude.{◌≡◌, ◌+◌, ◌≤◌, ◌++◌, length, vec_len, vec_capacity};
ghost use Rattle.choosing.specs.Parties.{pieces_of, seats_of};
ghost use Rattle.ledger.specs.Calls.{Numbered, said};
ghost use Rattle.ledger.specs.Decisions.{answered, given_by, notices, offers, receipt, reckoning, replies, settled};
ghost use Rattle.state.specs.Views.{view};

use crate::input::{Input, Outcome};
use choosing::party::Party;
use giving::ids::{Ask, Number, StationId};
use giving::message::{Body, Message};
use giving::refusal::Refusal;
use pieces::piece::Piece;
use state::station::Station;

fn receipt_of(station: &Station, from: StationId) -> Message
    ensures { result ≡ receipt (view station.now) from }
{
    Message {
        from: station.me(),
        to: from,
        body: Body::Taken(station.channels().taken_from(from)),
    }
}

// Whether a piece that came is answered: it was taken, or its number is not the next.
fn is_answered(outcome: Outcome) -> bool
    ensures { result ≡ answered outcome }
{
    matches!(
        outcome,
        Outcome::Done(_) | Outcome::Passed(Refusal::OutOfTurn)
    )
}

// Whether an ask is answered: anything was done for it.
fn is_settled(outcome: Outcome) -> bool
    ensures { result ≡ settled outcome }
{
    matches!(outcome, Outcome::Done(_) | Outcome::Gave(_, _, _, _))
}

// How many pieces an outcome has given.
fn given_count(outcome: Outcome) -> usize
    ensures value { result ≡ given_by outcome }
    ensures few { result ≤ 8 }
{
    match outcome {
        Outcome::Gave(_, _, _, party) => party.len(),
        _ => 0,
    }
}

// How many messages a call has that came to this.
pub fn said_count(input: Input, outcome: Outcome) -> usize
    ensures { result ≡ said input outcome }
{
    match (input, outcome) {
        (Input::Give(_, _), _) => given_count(outcome),
        (Input::Take(_, _, _), _) => usize::from(is_answered(outcome)),
        (Input::Grant(_, _, _), _) if is_settled(outcome) => given_count(outcome) + 1,
        _ => 0,
    }
}

// Says each piece that was given, under its number.
fn say_gifts(me: StationId, out: &mut Vec<Message>, to: StationId, first: Number, party: &Party)
    requires room { vec_len out.old + length (seats_of party.now) ≤ vec_capacity out.old }
    requires numbered { first.0 + length (seats_of party.now) ≤ 4294967296 }
    ensures said { out.new.items ≡ out.old.items ++ notices me.0 to first.0 (pieces_of party.now) }
    ensures room { (vec_len out.new ≡ vec_len out.old + length (seats_of party.now)) × (vec_capacity out.new ≡ vec_capacity out.old) }
{
    for (k, seat) in party.seats().iter().enumerate() {
        let piece = Piece::new(party.train, *seat, party.trip);
        out.push_reserved(Message {
            from: me,
            to,
            body: Body::Given(Number(first.0 + k as u32), piece),
        });
    }
}

// Says each piece that an outcome has given.
fn say_offers(me: StationId, out: &mut Vec<Message>, outcome: Outcome)
    requires room { vec_len out.old + given_by outcome ≤ vec_capacity out.old }
    requires numbered { Numbered outcome }
    ensures said { out.new.items ≡ out.old.items ++ offers me.0 outcome }
    ensures room { (vec_len out.new ≡ vec_len out.old + given_by outcome) × (vec_capacity out.new ≡ vec_capacity out.old) }
{
    if let Outcome::Gave(to, first, _, party) = outcome {
        say_gifts(me, out, to, first, &party);
    }
}

// How many pieces were given for an ask.
fn reckoning_of(me: StationId, from: StationId, ask: Ask, outcome: Outcome) -> Message
    ensures { result ≡ reckoning me.0 from ask (given_by outcome) }
{
    Message {
        from: me,
        to: from,
        body: Body::Answered(ask, given_count(outcome) as u8),
    }
}

// What the station says after a call: of pieces that it gave, how many it gave for an ask, or up to where it has taken another station's pieces.
pub fn say(station: &Station, out: &mut Vec<Message>, input: Input, outcome: Outcome)
    requires room { vec_len out.old + said input outcome ≤ vec_capacity out.old }
    requires numbered { Numbered outcome }
    ensures said { out.new.items ≡ out.old.items ++ replies (view station.now) input outcome }
    ensures capacity { vec_capacity out.new ≡ vec_capacity out.old }
{
    match (input, outcome) {
        (Input::Give(_, _), _) => say_offers(station.me(), out, outcome),
        (Input::Grant(from, ask, _), _) if is_settled(outcome) => {
            say_offers(station.me(), out, outcome);
            out.push_reserved(reckoning_of(station.me(), from, ask, outcome));
        }
        (Input::Take(from, _, _), _) if is_answered(outcome) => {
            out.push_reserved(receipt_of(station, from));
        }
        _ => {}
    }
}
