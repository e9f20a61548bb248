// What a station says at a tick: all that waits again, and at every fiftieth how much it holds. The memory for it is found first.
ghost use Rattle.std.specs.Prelude.{◌≡◌, ◌+◌, ◌%◌, ◌<◌, ◌≤◌, true, ◌++◌, length, is_some, vec_len, vec_capacity, MatchResult};
ghost use Rattle.asking.specs.Minds.{mind};
ghost use Rattle.asking.specs.Replies.{minded, spoken};
ghost use Rattle.asking.specs.Ticks.{reminder, reminders, reminders_to, telling, tellings, tellings_to, ticked};
ghost use Rattle.asking.specs.Turns.{others, open_trains};
ghost use Rattle.asking.specs.declared.event.Event.TheVariants.{Tick};
ghost use Rattle.asking.specs.declared.event.Reply.TheVariants.{Ticked};
ghost use Rattle.giving.specs.Channels.{line};
ghost use Rattle.giving.specs.declared.refusal.Refusal.TheVariants.{Memory};
ghost use Rattle.ledger.specs.Calls.{Filled};
ghost use Rattle.state.specs.States.{is_open};
ghost use Rattle.state.specs.Views.{view};
ghost use Rattle.timetable.specs.Tables.{table as rows_of};

use super::Desk;
use crate::event::Reply;
use giving::ids::StationId;
use giving::message::{Body, Message};
use giving::refusal::Refusal;
use pieces::names::Train;
use state::station::Station;
use timetable::timetable::Timetable;

// So many ticks lie between one telling and the next.
const TELLING: u8 = 50;

// The piece at a place of those that wait for a station, as it is said.
fn reminder_of(station: &Station, to: StationId, place: usize) -> Message
    requires { place < length (line (view station.now).channels to.0).waiting }
    ensures { result ≡ reminder (view station.now) (view station.now).me to.0 place }
{
    let (number, piece) = station.channels().waiting_at(to, place).unwrap();
    Message {
        from: station.me(),
        to,
        body: Body::Given(number, piece),
    }
}

// Says each piece that waits for a station, by number.
fn remind(station: &Station, out: &mut Vec<Message>, to: StationId)
    requires { vec_len out.old + length (reminders_to (view station.now) to.0) ≤ vec_capacity out.old }
    ensures said { out.new.items ≡ out.old.items ++ reminders_to (view station.now) to.0 }
    ensures room { vec_capacity out.new ≡ vec_capacity out.old }
{
    for place in 0..station.channels().waiting_for(to) {
        out.push_reserved(reminder_of(station, to, place));
    }
}

// Says all that waits, by station and number.
fn remind_all(station: &Station, out: &mut Vec<Message>)
    requires room { vec_len out.old + length (reminders (view station.now)) ≤ vec_capacity out.old }
    ensures said { out.new.items ≡ out.old.items ++ reminders (view station.now) }
    ensures room { vec_capacity out.new ≡ vec_capacity out.old }
{
    for k in 0..station.stations() {
        remind(station, out, StationId(k as u8));
    }
}

// How much of an open train is held, as a station is told of it.
fn telling_of(station: &Station, table: &Timetable, to: StationId, train: Train) -> Message
    requires running { is_open (view station.now) train ≡ true }
    requires listed { is_some (rows_of table.now train.0) ≡ true }
    ensures { result ≡ telling (rows_of table.now) (view station.now) (view station.now).me to train }
{
    let row = table.row(train).unwrap();
    Message {
        from: station.me(),
        to,
        body: Body::Told(train, station.tally(train, row.stops)),
    }
}

// Tells a station of each open train, by number.
fn tell(
    station: &Station,
    table: &Timetable,
    out: &mut Vec<Message>,
    to: StationId,
    trains: &[Train],
)
    requires trains { trains.now ≡ open_trains (rows_of table.now) (view station.now) }
    requires room { vec_len out.old + length trains.now ≤ vec_capacity out.old }
    ensures said { out.new.items ≡ out.old.items ++ tellings_to (rows_of table.now) (view station.now) to }
    ensures room { vec_capacity out.new ≡ vec_capacity out.old }
{
    for train in trains {
        out.push_reserved(telling_of(station, table, to, *train));
    }
}

// Tells each other station, by number.
fn tell_all(station: &Station, table: &Timetable, out: &mut Vec<Message>, trains: &[Train])
    requires trains { trains.now ≡ open_trains (rows_of table.now) (view station.now) }
    requires room { vec_len out.old + length (tellings (rows_of table.now) (view station.now)) ≤ vec_capacity out.old }
    ensures said { out.new.items ≡ out.old.items ++ tellings (rows_of table.now) (view station.now) }
    ensures room { vec_capacity out.new ≡ vec_capacity out.old }
{
    for k in 0..station.stations() {
        let to = StationId(k as u8);
        if to != station.me() {
            tell(station, table, out, to, trains);
        }
    }
}

// How many other stations there are.
fn count_others(station: &Station) -> usize
    ensures { result ≡ length (others (view station.now).me (length (view station.now).channels)) }
{
    let stations = station.stations();
    stations - usize::from(usize::from(station.me().0) < stations)
}

// Says again all that waits, for which the memory is found first.
fn say_again(station: &Station, out: &mut Vec<Message>) -> Result<(), Refusal>
    ensures { MatchResult result (λ _. out.new.items ≡ out.old.items ++ reminders (view station.now)) (λ e. (e ≡ Memory) × (out.new.items ≡ out.old.items) × Filled out.old (length (reminders (view station.now)))) }
{
    out.reserve(station.channels().waiting_in_all())?;
    remind_all(station, out);
    Ok(())
}

impl Desk {
    // Says again all that waits, and how much is held, for which the memory is found first.
    fn say_all(
        &mut self,
        station: &Station,
        table: &Timetable,
        out: &mut Vec<Message>,
    ) -> Result<(), Refusal>
        ensures mind { mind self.new ≡ mind self.old }
        ensures said { MatchResult result (λ _. out.new.items ≡ out.old.items ++ (reminders (view station.now) ++ tellings (rows_of table.now) (view station.now))) (λ e. (e ≡ Memory) × (out.new.items ≡ out.old.items) × Filled out.old (length (reminders (view station.now) ++ tellings (rows_of table.now) (view station.now)))) }
    {
        self.list_trains(station, table);
        let tellings = count_others(station) * self.trains.len();
        out.reserve(station.channels().waiting_in_all() + tellings)?;
        remind_all(station, out);
        tell_all(station, table, out, &self.trains);
        Ok(())
    }

    // A tick: all that waits is said again, and where it is the fiftieth, how much is held.
    pub(super) fn tick(
        &mut self,
        station: &Station,
        table: &Timetable,
        out: &mut Vec<Message>,
    ) -> Result<Reply, Refusal>
        ensures mind { mind self.new ≡ minded (view station.now) (mind self.old) Tick result }
        ensures said { out.new.items ≡ out.old.items ++ spoken (rows_of table.now) (view station.now) (mind self.new) Tick result }
        ensures cases { MatchResult result (λ r. r ≡ Ticked) (λ e. (e ≡ Memory) × Filled out.old (length (ticked (rows_of table.now) (view station.now) (((mind self.old).ticks + 1) % 50)))) }
    {
        let ticks = (self.ticks + 1) % TELLING;
        if ticks == 0 {
            self.say_all(station, table, out)?;
        } else {
            say_again(station, out)?;
        }
        self.ticks = ticks;
        Ok(Reply::Ticked)
    }
}
