// What each call comes to, by the state and the timetable alone. Nothing is changed here.
ghost use Rattle.std.specs.Prelude.{◌≡◌, ◌≤◌, true, min, IfOk, Ok, Some};
ghost use Rattle.giving.specs.Calls.{givable, room, unless};
ghost use Rattle.giving.specs.Posts.{chans};
ghost use Rattle.giving.specs.declared.refusal.Refusal.TheVariants.{Full};
ghost use Rattle.ledger.specs.Decisions.{decided, decided_open, granting, judged};
ghost use Rattle.ledger.specs.declared.input.Input.TheVariants.{Close, Sell, Undo, Give, Take, Hear, Grant};
ghost use Rattle.ledger.specs.declared.input.Input.TheVariants as asked;
ghost use Rattle.state.specs.States.{is_open};
ghost use Rattle.state.specs.Views.{view};
ghost use Rattle.timetable.specs.Tables.{table as rows_of};

use crate::input::{Input, Outcome};
use choosing::party::MOST;
use giving::channels::Channels;
use giving::ids::{Ask, Number, StationId, Ticket};
use giving::refusal::Refusal;
use pieces::demand::Demand;
use pieces::names::Train;
use pieces::piece::Piece;
use pieces::trip::Trip;
use state::record::Record;
use state::station::Station;
use std::cmp::Ordering;
use timetable::row::Row;
use timetable::timetable::Timetable;

// The row and the trip that a demand is for, on a train that is open; or why there is none.
fn judge(station: &Station, table: &Timetable, demand: Demand) -> Result<(Row, Trip), Refusal>
    ensures value { result ≡ judged (rows_of table.now) (view station.now) demand }
    ensures fit { IfOk result (λ _. (is_open (view station.now) demand.train ≡ true) × (demand.people ≤ 8)) }
{
    let trip = Trip::new(demand.from, demand.to).ok_or(Refusal::Malformed)?;
    if demand.people < 1 || usize::from(demand.people) > MOST {
        return Err(Refusal::Malformed);
    }
    let row = table.row(demand.train).ok_or(Refusal::NotOpen)?;
    if trip.to.0 >= row.stops {
        return Err(Refusal::Malformed);
    }
    if !station.is_open(demand.train) {
        return Err(Refusal::NotOpen);
    }
    Ok((row, trip))
}

fn decide_close(station: &Station, table: &Timetable, train: Train) -> Result<Outcome, Refusal>
    ensures { result ≡ decided (rows_of table.now) (view station.now) (Close train) }
{
    if !station.is_open(train) {
        return Err(Refusal::NotOpen);
    }
    Ok(Outcome::Done(Record::Closed(train)))
}

// A trip is sold under the next ticket, a seat for each of the people, or none.
fn decide_sell(station: &Station, table: &Timetable, demand: Demand) -> Result<Outcome, Refusal>
    ensures { result ≡ decided (rows_of table.now) (view station.now) (Sell demand) }
{
    let (row, trip) = judge(station, table, demand)?;
    let party = station.choose(demand.train, row.seats, trip, demand.people);
    if party.len() < usize::from(demand.people) {
        return Err(Refusal::NothingHeld);
    }
    if !station.tickets_left() {
        return Err(Refusal::Full);
    }
    let ticket = Ticket(station.sold_count() + 1);
    Ok(Outcome::Done(Record::Sold(ticket, party)))
}

// A ticket is undone while it stands and its train is open.
fn decide_undo(station: &Station, table: &Timetable, ticket: Ticket) -> Result<Outcome, Refusal>
    ensures { result ≡ decided (rows_of table.now) (view station.now) (Undo ticket) }
{
    if !station.is_returnable(table, ticket) {
        return Err(Refusal::NoSuchTicket);
    }
    Ok(Outcome::Done(Record::Undone(ticket)))
}

// For how many of the people seats may be given to a station, as long as a piece more may wait and has a number.
fn most_given(channels: &Channels, to: StationId, people: u8) -> Result<u8, Refusal>
    ensures { result ≡ unless (givable (chans channels.now) to.0) Full (Ok (min people (room (chans channels.now) to.0))) }
{
    if !channels.is_roomy() || !channels.is_numbered(to) {
        return Err(Refusal::Full);
    }
    Ok(u32::from(people).min(channels.room(to)) as u8)
}

// As many seats are given as can be taken, and as may wait, under the channel's next numbers.
fn decide_give(
    station: &Station,
    table: &Timetable,
    to: StationId,
    demand: Demand,
) -> Result<Outcome, Refusal>
    ensures { result ≡ decided (rows_of table.now) (view station.now) (Give to demand) }
{
    let (row, trip) = judge(station, table, demand)?;
    let channels = station.channels();
    let count = most_given(channels, to, demand.people)?;
    if !channels.is_other(to) {
        return Err(Refusal::NoSuchStation);
    }
    let party = station.choose(demand.train, row.seats, trip, count);
    Ok(Outcome::Gave(to, channels.next_number(to), Ask(0), party))
}

// Others are asked under the next number.
fn decide_ask(station: &Station, table: &Timetable, demand: Demand) -> Result<Outcome, Refusal>
    ensures { result ≡ decided (rows_of table.now) (view station.now) (asked.Ask demand) }
{
    judge(station, table, demand)?;
    if !station.asks_left() {
        return Err(Refusal::Full);
    }
    if station.stations() <= 1 {
        return Err(Refusal::NoSuchStation);
    }
    Ok(Outcome::Done(Record::Asked(Ask(station.asked().0 + 1))))
}

// For an ask as many seats are given as there are beside the kept one, and as may wait; or it is answered with none.
fn grant(
    station: &Station,
    from: StationId,
    ask: Ask,
    demand: Demand,
    row: Row,
    trip: Trip,
) -> Result<Outcome, Refusal>
    requires { (is_open (view station.now) demand.train ≡ true) × (demand.people ≤ 8) }
    ensures { result ≡ granting (view station.now) from ask demand (Some (row, trip)) }
{
    let channels = station.channels();
    let count = most_given(channels, from, demand.people)?;
    let party = station.choose_beside(demand.train, row.seats, trip, count);
    if party.len() == 0 {
        return Ok(Outcome::Done(Record::Declined(from, ask)));
    }
    Ok(Outcome::Gave(from, channels.next_number(from), ask, party))
}

// An ask is answered if it is later than all of that station's that were, and passed over if it is not.
fn decide_grant(
    station: &Station,
    table: &Timetable,
    from: StationId,
    ask: Ask,
    demand: Demand,
) -> Result<Outcome, Refusal>
    ensures { result ≡ decided (rows_of table.now) (view station.now) (Grant from ask demand) }
{
    let judged = match judge(station, table, demand) {
        Ok(found) => Some(found),
        Err(Refusal::NotOpen) => None,
        Err(refusal) => return Err(refusal),
    };
    let channels = station.channels();
    if !channels.is_other(from) {
        return Err(Refusal::NoSuchStation);
    }
    if !channels.is_unanswered(from, ask) {
        return Ok(Outcome::Nothing);
    }
    match judged {
        Some((row, trip)) => grant(station, from, ask, demand, row, trip),
        None => Ok(Outcome::Done(Record::Declined(from, ask))),
    }
}

// A piece is taken if it has the other station's next number.
fn decide_take(
    station: &Station,
    table: &Timetable,
    from: StationId,
    number: Number,
    piece: Piece,
) -> Result<Outcome, Refusal>
    ensures { result ≡ decided (rows_of table.now) (view station.now) (Take from number piece) }
{
    if !table.is_listed(piece) {
        return Err(Refusal::Malformed);
    }
    if !station.channels().is_other(from) {
        return Err(Refusal::NoSuchStation);
    }
    Ok(match station.channels().standing(from, number) {
        Ordering::Less | Ordering::Greater => Outcome::Passed(Refusal::OutOfTurn),
        Ordering::Equal if station.is_known(piece.train) || station.is_openable() => {
            Outcome::Done(Record::Taken(from, number, piece))
        }
        Ordering::Equal => Outcome::Passed(Refusal::Full),
    })
}

// Another station has taken all up to a number.
fn decide_hear(
    station: &Station,
    table: &Timetable,
    from: StationId,
    number: Number,
) -> Result<Outcome, Refusal>
    ensures { result ≡ decided (rows_of table.now) (view station.now) (Hear from number) }
{
    let channels = station.channels();
    if !channels.was_given(from, number) {
        return Err(Refusal::Malformed);
    }
    if !channels.is_other(from) {
        return Err(Refusal::NoSuchStation);
    }
    if !channels.is_news(from, number) {
        return Ok(Outcome::Nothing);
    }
    Ok(Outcome::Done(Record::Heard(from, number)))
}

// What a call comes to.
pub fn decide(station: &Station, table: &Timetable, input: Input) -> Result<Outcome, Refusal>
    ensures { result ≡ decided (rows_of table.now) (view station.now) input }
{
    match input {
        Input::Close(train) => decide_close(station, table, train),
        Input::Sell(demand) => decide_sell(station, table, demand),
        Input::Undo(ticket) => decide_undo(station, table, ticket),
        Input::Give(to, demand) => decide_give(station, table, to, demand),
        Input::Take(from, number, piece) => decide_take(station, table, from, number, piece),
        Input::Hear(from, number) => decide_hear(station, table, from, number),
        Input::Ask(demand) => decide_ask(station, table, demand),
        Input::Grant(from, ask, demand) => decide_grant(station, table, from, ask, demand),
    }
}

// What it comes to that a train is opened, with its row of the timetable.
pub fn decide_open(station: &Station, table: &Timetable, row: Row) -> Result<Outcome, Refusal>
    ensures { result ≡ decided_open (rows_of table.now) (view station.now) row }
{
    if !table.admits(row) {
        return Err(Refusal::Malformed);
    }
    if station.is_known(row.train) {
        return Err(Refusal::NotOpen);
    }
    if !station.is_openable() {
        return Err(Refusal::Full);
    }
    Ok(Outcome::Done(Record::Opened(row.train)))
}
