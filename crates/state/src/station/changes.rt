// The changes of a station's state, one for each kind of record.
ghost use Rattle.std.specs.Prelude.{◌≡◌, ◌+◌, ◌-◌, ◌<◌, true, ◌&&◌, ◌||◌, [], ◌∷◌, ◌++◌, map, if◌then◌else◌, vec_len, vec_capacity, MatchResult, OnErr, ◌==◌, slice_set};
ghost use Rattle.giving.specs.Calls.{givable};
ghost use Rattle.giving.specs.Channels.{declined, gave, heard_to, line, news, other, took, unanswered};
ghost use Rattle.giving.specs.declared.refusal.Refusal.TheVariants.{Memory};
ghost use Rattle.state.specs.Changes.{apply, changed, changed_all, closing, fits, forgotten, opened, put_all, put_back, received, returned, taken_all, taken_out, with_asked, with_gave, with_line, with_sold, with_tickets};
ghost use Rattle.state.specs.Ready.{Ready, Seated, SeatedAll, Spent, Standing, trimming};
ghost use Rattle.state.specs.States.{is_open, known, openable, ticket_of, tickets_left};
ghost use Rattle.state.specs.Views.{view};
ghost use Rattle.timetable.specs.Rows.{listed};
ghost use Rattle.timetable.specs.Tables.{table as rows_of};

use super::sales::{forget_all, stale_count};
use super::{STATIONS, Station};
use crate::record::Record;
use choosing::party::Party;
use giving::ids::{Ask, Number, StationId, Ticket};
use giving::refusal::Refusal;
use pieces::change::{Change, PutBack, TakeOut};
use pieces::names::Train;
use pieces::piece::Piece;
use pieces::seats::full;
use timetable::timetable::Timetable;

impl Station {
    // Changes what is held of a piece.
    fn change<C: Change>(&mut self, piece: Piece)
        requires { Seated (view self.old) piece }
        ensures { view self.new ≡ changed C.changed (view self.old) piece }
    {
        let slot = self.slot(Some(piece.train)).unwrap();
        self.memory.change::<C>(slot, piece.seat, piece.trip);
    }

    // Changes what is held of the pieces of a party, one after the other.
    fn change_all<C: Change>(&mut self, party: Party)
        requires { SeatedAll (view self.old) party }
        ensures { view self.new ≡ changed_all C.changed (view self.old) party }
    {
        let slot = self.slot(Some(party.train)).unwrap();
        self.memory.change_all::<C>(slot, party.seats(), party.trip);
    }

    // Takes a piece out of what is held.
    fn take_out(&mut self, piece: Piece)
        requires { Seated (view self.old) piece }
        ensures { view self.new ≡ taken_out (view self.old) piece }
    {
        self.change::<TakeOut>(piece);
    }

    // Puts a piece back into what is held.
    fn put_back(&mut self, piece: Piece)
        requires { Seated (view self.old) piece }
        ensures { view self.new ≡ put_back (view self.old) piece }
    {
        self.change::<PutBack>(piece);
    }

    // Forgets the tickets of a train.
    fn forget(&mut self, train: Train)
        ensures { view self.new ≡ with_tickets (view self.old) (map (forgotten train) (view self.old).tickets) }
    {
        forget_all(&mut self.tickets, train);
    }

    // Drops the tickets at the front that do not stand any more.
    fn trim(&mut self)
        ensures { view self.new ≡ trimming (view self.old) }
    {
        let count = stale_count(&self.tickets);
        self.tickets.drain(..count);
        self.dropped += count as u32;
    }

    // Opens a train of the timetable: the first station has all of it, and every other one nothing.
    #[tactic(auto, unfolding(crate::specs::States::nobody))]
    fn open_train(&mut self, table: &Timetable, train: Train)
        requires { openable (view self.old) ≡ true }
        ensures { view self.new ≡ opened (rows_of table.now train.0) train (view self.old) }
    {
        let Some(row) = table.row(train) else {
            return;
        };
        let slot = self.slot(None).unwrap();
        let word = if self.me() == row.first {
            full(row.stops)
        } else {
            0
        };
        self.memory.open(slot, row.seats, word);
        self.slots[slot.index()] = Some(train);
        self.ever_sold[slot.index()] = false;
        self.ever_gave[slot.index()] = [false; STATIONS];
    }

    // Opens a train that is not open.
    fn open_unless_open(&mut self, table: &Timetable, train: Train)
        requires { (is_open (view self.old) train || openable (view self.old)) ≡ true }
        ensures { view self.new ≡ (if is_open (view self.old) train then view self.old else opened (rows_of table.now train.0) train (view self.old)) }
    {
        if self.is_open(train) {
            return;
        }
        self.open_train(table, train);
    }

    // Closes a train: its tickets are forgotten, and what was held of it is lost.
    fn close_train(&mut self, train: Train)
        requires open { is_open (view self.old) train ≡ true }
        requires ready { vec_len self.old.closed < vec_capacity self.old.closed }
        ensures { view self.new ≡ closing train (view self.old) }
    {
        let slot = self.slot(Some(train)).unwrap();
        self.slots[slot.index()] = None;
        self.closed.push_reserved(train);
        self.forget(train);
        self.trim();
    }

    // Sells the pieces of a party under one ticket.
    fn sell(&mut self, party: Party)
        requires seated { SeatedAll (view self.old) party }
        requires left { tickets_left (view self.old) ≡ true }
        requires ready { vec_len self.old.tickets < vec_capacity self.old.tickets }
        ensures { view self.new ≡ with_sold (with_tickets (taken_all (view self.old) party) ((view self.old).tickets ++ Some party ∷ [])) party.train }
    {
        let slot = self.slot(Some(party.train)).unwrap();
        self.tickets.push_reserved(Some(party));
        self.ever_sold[slot.index()] = true;
        self.change_all::<TakeOut>(party);
    }

    // Undoes a ticket that stands.
    fn undo(&mut self, n: Ticket)
        requires { Standing (view self.old) (ticket_of (view self.old) n.0) }
        ensures { view self.new ≡ with_tickets (returned (ticket_of (view self.old) n.0) (view self.old)) (slice_set (view self.old).tickets (n.0 - 1 - (view self.old).dropped) None) }
    {
        let sold = self.ticket(n).unwrap();
        self.tickets[(n.0 - 1 - self.dropped) as usize] = None;
        self.change_all::<PutBack>(sold);
    }

    // Gives a piece that is held to another station, for an ask of its or for none.
    fn give(&mut self, to: StationId, ask: Ask, piece: Piece)
        requires seated { Seated (view self.old) piece }
        requires goes { (givable (view self.old).channels to.0 && other (view self.old).me (view self.old).channels to.0) ≡ true }
        ensures { view self.new ≡ with_gave (with_line (taken_out (view self.old) piece) to (gave (line (view self.old).channels to.0) ask.0 piece)) piece.train to }
    {
        let slot = self.slot(Some(piece.train)).unwrap();
        self.ever_gave[slot.index()][usize::from(to.0)] = true;
        self.channels.give(to, ask, piece).unwrap();
        self.take_out(piece);
    }

    // Holds a piece that comes, unless its train was closed.
    fn receive(&mut self, table: &Timetable, piece: Piece)
        requires listed { listed (rows_of table.now piece.train.0) piece ≡ true }
        requires room { (known (view self.old) piece.train || openable (view self.old)) ≡ true }
        ensures { view self.new ≡ received (rows_of table.now) (view self.old) piece }
    {
        if self.was_closed(piece.train) {
            return;
        }
        self.open_unless_open(table, piece.train);
        self.put_back(piece);
    }

    // Takes the next piece of another station.
    fn take(&mut self, table: &Timetable, from: StationId, number: Number, piece: Piece)
        requires listed { listed (rows_of table.now piece.train.0) piece ≡ true }
        requires room { (known (view self.old) piece.train || openable (view self.old)) ≡ true }
        requires next { (other (view self.old).me (view self.old).channels from.0 && number.0 == (line (view self.old).channels from.0).taken + 1) ≡ true }
        ensures { view self.new ≡ with_line (received (rows_of table.now) (view self.old) piece) from (took (line (view self.old).channels from.0)) }
    {
        self.receive(table, piece);
        self.channels.receive(from, number).unwrap();
    }

    // Another station has taken all up to a number.
    fn hear(&mut self, from: StationId, number: Number)
        requires { (other (view self.old).me (view self.old).channels from.0 && news (line (view self.old).channels from.0) number.0) ≡ true }
        ensures { view self.new ≡ with_line (view self.old) from (heard_to (line (view self.old).channels from.0) number.0) }
    {
        self.channels.hear(from, number).unwrap();
    }

    // Uses up a number for an ask.
    fn ask(&mut self, ask: Ask)
        ensures { view self.new ≡ with_asked (view self.old) ask.0 }
    {
        self.asked = ask;
    }

    // Answers an ask of another station's with nothing.
    fn decline(&mut self, to: StationId, ask: Ask)
        requires { other (view self.old).me (view self.old).channels to.0 ≡ true }
        ensures { view self.new ≡ with_line (view self.old) to (declined (line (view self.old).channels to.0) ask.0) }
    {
        self.channels.decline(to, ask).unwrap();
    }

    // Finds the memory for what a record adds.
    pub fn reserve(&mut self, entry: Record) -> Result<(), Refusal>
        ensures state { view self.new ≡ view self.old }
        ensures cases { MatchResult result (λ _. Ready self.new entry) (λ e. (e ≡ Memory) × Spent self.old entry) }
        ensures still { OnErr result (Spent self.new entry) }
    {
        match entry {
            Record::Sold(_, _) => self.tickets.reserve(1)?,
            Record::Closed(_) => self.closed.reserve(1)?,
            _ => {}
        }
        Ok(())
    }

    // Makes the change of a record that fits.
    pub fn apply(&mut self, table: &Timetable, entry: Record)
        requires fits { fits (rows_of table.now) (view self.old) entry ≡ true }
        requires ready { Ready self.old entry }
        ensures { view self.new ≡ apply (rows_of table.now) (view self.old) entry }
    {
        match entry {
            Record::Opened(train) => self.open_train(table, train),
            Record::Closed(train) => self.close_train(train),
            Record::Sold(_, party) => self.sell(party),
            Record::Undone(ticket) => self.undo(ticket),
            Record::Given(to, _, ask, piece) => self.give(to, ask, piece),
            Record::Taken(from, number, piece) => self.take(table, from, number, piece),
            Record::Heard(from, number) => self.hear(from, number),
            Record::Asked(ask) => self.ask(ask),
            Record::Declined(to, ask) => self.decline(to, ask),
        }
    }
}
