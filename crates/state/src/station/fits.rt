// Where a record may stand: what is asked of one that was written, before it is applied again.
ghost use Rattle.std.specs.Prelude.{◌≡◌, ◌&&◌};
ghost use Rattle.giving.specs.Channels.{line};
ghost use Rattle.state.specs.Changes.{fits, fresh_ask, holds_all, listed_all, returnable};
ghost use Rattle.state.specs.States.{is_open, ticket_of};
ghost use Rattle.state.specs.Views.{view};
ghost use Rattle.state.specs.declared.record.Record.TheVariants.{Given, Opened, Sold, Taken};
ghost use Rattle.timetable.specs.Tables.{table as rows_of};

use super::Station;
use crate::record::Record;
use choosing::covers::covers_all;
use choosing::party::{MOST, Party};
use giving::ids::{Ask, Number, StationId, Ticket};
use pieces::names::Train;
use pieces::piece::Piece;
use timetable::timetable::Timetable;

// Whether the train of a party is in the timetable, and has its seats and stops.
fn is_listed(table: &Timetable, party: &Party) -> bool
    ensures { result ≡ listed_all (rows_of table.now party.now.train.0) party.now }
{
    table
        .row(party.train)
        .is_some_and(|row| party.is_within(row.seats, row.stops))
}

impl Station {
    // Whether the train of a party is open, and all its pieces are held.
    fn holds_all(&self, party: &Party) -> bool
        ensures { result ≡ (is_open (view self.now) party.now.train && holds_all (view self.now) party.now) }
    {
        self.slot(Some(party.train))
            .is_some_and(|slot| covers_all(&self.memory, slot, party))
    }

    // Whether a ticket stands and may be undone: its train is open, and has its pieces.
    pub fn is_returnable(&self, table: &Timetable, ticket: Ticket) -> bool
        ensures { result ≡ returnable (rows_of table.now) (view self.now) (ticket_of (view self.now) ticket.0) }
    {
        self.ticket(ticket).is_some_and(|party| is_listed(table, &party)
            && self.is_open(party.train))
    }

    fn fits_opened(&self, table: &Timetable, train: Train) -> bool
        ensures { result ≡ fits (rows_of table.now) (view self.now) (Opened train) }
    {
        table.row(train).is_some() && !self.is_known(train) && self.is_openable()
    }

    fn fits_sold(&self, table: &Timetable, ticket: Ticket, party: &Party) -> bool
        ensures { result ≡ fits (rows_of table.now) (view self.now) (Sold ticket party.now) }
    {
        (1..=MOST).contains(&party.len())
            && is_listed(table, party)
            && self.holds_all(party)
            && self.tickets_left()
            && ticket.0 == self.sold_count() + 1
    }

    // Whether a piece may be given for an ask: for none, or for one that is not older than the last that was answered.
    fn is_fresh_ask(&self, to: StationId, ask: Ask) -> bool
        ensures { result ≡ fresh_ask (line (view self.now).channels to.0) ask.0 }
    {
        ask.0 == 0 || self.channels.answered_to(to) <= ask
    }

    fn fits_given(
        &self,
        table: &Timetable,
        to: StationId,
        number: Number,
        ask: Ask,
        piece: Piece,
    ) -> bool
        ensures { result ≡ fits (rows_of table.now) (view self.now) (Given to number ask piece) }
    {
        table.is_listed(piece)
            && self.is_open(piece.train)
            && self.holds_piece(piece)
            && self.channels.is_roomy()
            && self.channels.is_numbered(to)
            && self.channels.is_other(to)
            && number == self.channels.next_number(to)
            && self.is_fresh_ask(to, ask)
    }

    fn fits_taken(&self, table: &Timetable, from: StationId, number: Number, piece: Piece) -> bool
        ensures { result ≡ fits (rows_of table.now) (view self.now) (Taken from number piece) }
    {
        table.is_listed(piece)
            && self.channels.is_other(from)
            && self.channels.is_next(from, number)
            && (self.is_known(piece.train) || self.is_openable())
    }

    // Whether a record may stand here.
    pub fn fits(&self, table: &Timetable, entry: Record) -> bool
        ensures { result ≡ fits (rows_of table.now) (view self.now) entry }
    {
        match entry {
            Record::Opened(train) => self.fits_opened(table, train),
            Record::Closed(train) => self.is_open(train),
            Record::Sold(ticket, party) => self.fits_sold(table, ticket, &party),
            Record::Undone(ticket) => self.is_returnable(table, ticket),
            Record::Given(to, number, ask, piece) => {
                self.fits_given(table, to, number, ask, piece)
            }
            Record::Taken(from, number, piece) => self.fits_taken(table, from, number, piece),
            Record::Heard(from, number) => {
                self.channels.is_other(from) && self.channels.is_news(from, number)
            }
            Record::Asked(ask) => self.asks_left() && ask.0 == self.asked.0 + 1,
            Record::Declined(to, ask) => {
                self.channels.is_other(to) && self.channels.is_unanswered(to, ask)
            }
        }
    }
}
