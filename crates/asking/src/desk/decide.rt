// What another station's answer, or what it tells, comes to. Nothing is changed here.
ghost use Rattle.std.specs.Prelude.{◌≡◌};
ghost use Rattle.asking.specs.Events.{resolved_answer, resolved_telling, under_way};
ghost use Rattle.asking.specs.Minds.{is_asked, mind, wanted};
ghost use Rattle.asking.specs.Told.{sensible};
ghost use Rattle.state.specs.Views.{view};
ghost use Rattle.timetable.specs.Tables.{table as rows_of};

use super::Desk;
use crate::event::Reply;
use choosing::party::MOST;
use giving::ids::{Ask, StationId};
use giving::refusal::Refusal;
use ledger::input::Outcome;
use pieces::memory::SEATS;
use pieces::names::Train;
use pieces::tally::Tally;
use state::station::Station;
use timetable::row::Row;
use timetable::timetable::Timetable;

// Whether so much can be held of a train with this row, or of one that the timetable has not.
fn is_sensible(row: Option<Row>, tally: Tally) -> bool
    ensures { result ≡ sensible row tally }
{
    let seats = row.map_or(SEATS, |row| usize::from(row.seats));
    tally.whole <= tally.any && usize::from(tally.any) <= seats
}

// What it comes to that a station tells how much it holds of a train.
pub(super) fn resolve_telling(
    station: &Station,
    table: &Timetable,
    from: StationId,
    train: Train,
    tally: Tally,
) -> Result<Reply, Refusal>
    ensures { result ≡ resolved_telling (rows_of table.now) (view station.now) from train tally }
{
    if !is_sensible(table.row(train), tally) {
        return Err(Refusal::Malformed);
    }
    if !station.channels().is_other(from) {
        return Err(Refusal::NoSuchStation);
    }
    if !station.is_open(train) {
        return Ok(Reply::Came(Outcome::Nothing));
    }
    Ok(Reply::Noted)
}

impl Desk {
    // Whether a station is asked now.
    fn is_asked(&self, who: StationId) -> bool
        ensures { result ≡ is_asked (mind self.now).inquiry who }
    {
        self.demand.is_some() && self.order.get(self.at) == Some(&who)
    }

    // For how many people pieces are still wanted.
    fn wanted(&self) -> u8
        ensures { result ≡ wanted (mind self.now).inquiry }
    {
        self.demand.map_or(0, |demand| demand.people)
    }

    // Whether an answer of a station's is to the ask under way, and that station is asked now.
    fn is_under_way(&self, station: &Station, from: StationId, ask: Ask) -> bool
        ensures { result ≡ under_way (view station.now) (mind self.now) from ask }
    {
        ask == station.asked() && self.is_asked(from)
    }

    // What it comes to that a station answers an ask with so many pieces.
    pub(super) fn resolve_answer(
        &self,
        station: &Station,
        from: StationId,
        ask: Ask,
        count: u8,
    ) -> Result<Reply, Refusal>
        ensures { result ≡ resolved_answer (view station.now) (mind self.now) from ask count }
    {
        let under_way = self.is_under_way(station, from, ask);
        if usize::from(count) > MOST || (under_way && count > self.wanted()) {
            return Err(Refusal::Malformed);
        }
        if !station.channels().is_other(from) {
            return Err(Refusal::NoSuchStation);
        }
        if !under_way {
            return Ok(Reply::Came(Outcome::Nothing));
        }
        Ok(Reply::Noted)
    }
}
