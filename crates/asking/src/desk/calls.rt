// What comes to a station, of every kind. What lasts is done by calls of the ledger alone. All memory is found first: for want of it nothing is changed.
ghost use Rattle.std.specs.Prelude.{◌≡◌, ◌+◌, ◌≤◌, ◌<◌, true, false, ◌++◌, length, vec_len, vec_capacity, Ok};
ghost use Rattle.asking.specs.Events.{resolved, resolved_answer, resolved_telling};
ghost use Rattle.asking.specs.Minds.{Led, advanced, mind};
ghost use Rattle.asking.specs.Replies.{Plain, Scarce, lasting, minded, query, spoken, written};
ghost use Rattle.asking.specs.declared.event.Event.TheVariants as event;
ghost use Rattle.asking.specs.declared.event.Reply.TheVariants.{Came, Noted};
ghost use Rattle.ledger.specs.Calls.{Filled};
ghost use Rattle.ledger.specs.Decisions.{for_memory};
ghost use Rattle.ledger.specs.declared.input.Input.TheVariants as input;
ghost use Rattle.state.specs.Views.{view};
ghost use Rattle.timetable.specs.Rows.{Table};
ghost use Rattle.timetable.specs.Tables.{table as rows_of};

use super::Desk;
use super::decide::resolve_telling;
use crate::event::{Event, Reply};
use crate::told::Note;
use giving::ids::{Ask, StationId};
use giving::message::{Body, Message};
use giving::refusal::Refusal;
use ledger::calls::call;
use ledger::decide::decide;
use ledger::input::{Input, Outcome};
use pieces::demand::Demand;
use pieces::names::Train;
use pieces::tally::Tally;
use state::record::Record;
use state::station::Station;
use timetable::timetable::Timetable;

impl Desk {
    // Asks the first of those that are still to answer for what is still wanted, while an ask is under way.
    fn say_query(&self, station: &Station, out: &mut Vec<Message>)
        requires led { Led (mind self.now).inquiry }
        requires room { vec_len out.old + length (query (view station.now) (mind self.now).inquiry) ≤ vec_capacity out.old }
        ensures { out.new.items ≡ out.old.items ++ query (view station.now) (mind self.now).inquiry }
    {
        if let Some(demand) = self.demand {
            out.push_reserved(Message {
                from: station.me(),
                to: self.order[self.at],
                body: Body::Asked(station.asked(), demand),
            });
        }
    }

    // The answer of the station that is asked now: the next one is asked for what is still wanted.
    fn take_answer(
        &mut self,
        station: &Station,
        out: &mut Vec<Message>,
        from: StationId,
        ask: Ask,
        count: u8,
    ) -> Result<Reply, Refusal>
        ensures mind { mind self.new ≡ minded (view station.now) (mind self.old) (event.Answered from ask count) result }
        ensures said { (tb : Table) → out.new.items ≡ out.old.items ++ spoken tb (view station.now) (mind self.new) (event.Answered from ask count) result }
        ensures answer { for_memory result ≡ false → result ≡ resolved_answer (view station.now) (mind self.old) from ask count }
        ensures memory { for_memory result ≡ true → (resolved_answer (view station.now) (mind self.old) from ask count ≡ Ok Noted) × Filled out.old (length (query (view station.now) (advanced (mind self.old).inquiry count))) }
    {
        let reply = self.resolve_answer(station, from, ask, count)?;
        if let Reply::Noted = reply {
            out.reserve(usize::from(self.next_demand(count).is_some()))?;
            self.advance(count);
            self.say_query(station, out);
        }
        Ok(reply)
    }

    // What a station tells is kept in mind.
    fn take_telling(
        &mut self,
        station: &Station,
        table: &Timetable,
        from: StationId,
        train: Train,
        tally: Tally,
    ) -> Result<Reply, Refusal>
        ensures mind { mind self.new ≡ minded (view station.now) (mind self.old) (event.Told from train tally) result }
        ensures answer { for_memory result ≡ false → result ≡ resolved_telling (rows_of table.now) (view station.now) from train tally }
        ensures memory { for_memory result ≡ true → (resolved_telling (rows_of table.now) (view station.now) from train tally ≡ Ok Noted) × Filled self.old.told.notes 1 }
    {
        let reply = resolve_telling(station, table, from, train, tally)?;
        if let Reply::Noted = reply {
            self.told.reserve()?;
            self.told.keep(Note { train, from, tally });
        }
        Ok(reply)
    }

    // A call that goes by the lasting state alone; a train that it closes is forgotten.
    fn carry_out(
        &mut self,
        station: &mut Station,
        table: &Timetable,
        journal: &mut Vec<Record>,
        out: &mut Vec<Message>,
        input: Input,
    ) -> Result<Reply, Refusal>
        requires { Plain input }
        ensures state { view station.new ≡ lasting (rows_of table.now) (view station.old) result }
        ensures written { journal.new.items ≡ journal.old.items ++ written (view station.old) result }
        ensures mind { mind self.new ≡ minded (view station.old) (mind self.old) (event.Call input) result }
        ensures said { out.new.items ≡ out.old.items ++ spoken (rows_of table.now) (view station.new) (mind self.new) (event.Call input) result }
        ensures answer { for_memory result ≡ false → result ≡ resolved (rows_of table.now) (view station.old) (mind self.old) (event.Call input) }
        ensures memory { for_memory result ≡ true → Scarce (rows_of table.now) station.old journal.old out.old self.old (event.Call input) (resolved (rows_of table.now) (view station.old) (mind self.old) (event.Call input)) }
    {
        let outcome = call(station, table, journal, out, input)?;
        if let (Input::Close(train), Outcome::Done(_)) = (input, outcome) {
            self.forget(train);
        }
        Ok(Reply::Came(outcome))
    }

    // An ask: it is written, and the first of the others in turn is asked.
    fn ask(
        &mut self,
        station: &mut Station,
        table: &Timetable,
        journal: &mut Vec<Record>,
        out: &mut Vec<Message>,
        demand: Demand,
    ) -> Result<Reply, Refusal>
        ensures state { view station.new ≡ lasting (rows_of table.now) (view station.old) result }
        ensures written { journal.new.items ≡ journal.old.items ++ written (view station.old) result }
        ensures mind { mind self.new ≡ minded (view station.old) (mind self.old) (event.Call (input.Ask demand)) result }
        ensures said { out.new.items ≡ out.old.items ++ spoken (rows_of table.now) (view station.new) (mind self.new) (event.Call (input.Ask demand)) result }
        ensures answer { for_memory result ≡ false → result ≡ resolved (rows_of table.now) (view station.old) (mind self.old) (event.Call (input.Ask demand)) }
        ensures memory { for_memory result ≡ true → Scarce (rows_of table.now) station.old journal.old out.old self.old (event.Call (input.Ask demand)) (resolved (rows_of table.now) (view station.old) (mind self.old) (event.Call (input.Ask demand))) }
    {
        decide(station, table, Input::Ask(demand))?;
        out.reserve(1)?;
        call(station, table, journal, out, Input::Ask(demand))?;
        self.line_up(demand.train, station.me(), station.stations() as u16);
        self.demand = Some(demand);
        self.say_query(station, out);
        Ok(Reply::Asks(self.order[0]))
    }

    // What comes to a station: it is decided, what lasts of it is written and done, the rest is kept in mind, and what is to be said of it is said.
    pub fn handle(
        &mut self,
        station: &mut Station,
        table: &Timetable,
        journal: &mut Vec<Record>,
        out: &mut Vec<Message>,
        event: Event,
    ) -> Result<Reply, Refusal>
        ensures state { view station.new ≡ lasting (rows_of table.now) (view station.old) result }
        ensures written { journal.new.items ≡ journal.old.items ++ written (view station.old) result }
        ensures mind { mind self.new ≡ minded (view station.old) (mind self.old) event result }
        ensures said { out.new.items ≡ out.old.items ++ spoken (rows_of table.now) (view station.new) (mind self.new) event result }
        ensures answer { for_memory result ≡ false → result ≡ resolved (rows_of table.now) (view station.old) (mind self.old) event }
        ensures memory { for_memory result ≡ true → Scarce (rows_of table.now) station.old journal.old out.old self.old event (resolved (rows_of table.now) (view station.old) (mind self.old) event) }
    {
        match event {
            Event::Call(Input::Ask(demand)) => self.ask(station, table, journal, out, demand),
            Event::Call(input) => self.carry_out(station, table, journal, out, input),
            Event::Answered(from, ask, count) => self.take_answer(station, out, from, ask, count),
            Event::Told(from, train, tally) => {
                self.take_telling(station, table, from, train, tally)
            }
            Event::Tick => self.tick(station, table, out),
            Event::Garbled => Err(Refusal::Malformed),
        }
    }
}
