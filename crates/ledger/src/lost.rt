// The trains of a station that lost its file. People look for its pieces and tickets, and each other station lists the trains for them.
ghost use Rattle.std.specs.Prelude.{◌≡◌, true, MatchResult};
ghost use Rattle.giving.specs.Channels.{other};
ghost use Rattle.ledger.specs.Lost.{Listed, Unlisted, missing};
ghost use Rattle.state.specs.Views.{view};
ghost use Rattle.timetable.specs.Tables.{table as rows_of};

use giving::ids::StationId;
use giving::refusal::Refusal;
use pieces::names::Train;
use state::station::Station;
use std::alloc::Global;
use timetable::timetable::Timetable;

// Whether a train that was not closed here is one of another station's: that one was its first, or was ever given a piece of it.
fn is_missing(station: &Station, table: &Timetable, who: StationId, train: Train) -> bool
    ensures { result ≡ missing (rows_of table.now train.0) (view station.now) who train }
{
    table.row(train).is_some_and(|row| {
        (row.first == who || station.has_given(train, who)) && !station.was_closed(train)
    })
}

// The trains of another station, by number.
pub fn lost_trains(
    heap: Global,
    station: &Station,
    table: &Timetable,
    who: StationId,
) -> Result<Vec<Train>, Refusal>
    ensures { MatchResult result
        (λ v. (other (view station.now).me (view station.now).channels who.0 ≡ true) × Listed (rows_of table.now) (view station.now) who v.items)
        (Unlisted (rows_of table.now) (view station.now) who) }
{
    if !station.channels().is_other(who) {
        return Err(Refusal::NoSuchStation);
    }
    let mut trains = Vec::new(heap);
    for train in table.trains() {
        if is_missing(station, table, who, *train) {
            trains.push(*train)?;
        }
    }
    Ok(trains)
}
