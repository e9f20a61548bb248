// The map: where each stretch of each seat is.
ghost use Rattle.rehearse.specs.Maps.{run_text};
ghost use Rattle.std.specs.Prelude.{Some};

use giving::ids::StationId;
use network::place::Place;
use pieces::names::{Seat, Stop, Train};
use pieces::stretch::Stretch;
use rehearsal::world::World;
use std::alloc::{AllocError, Global};
use std::fmt;
use timetable::row::Row;

// A run of stretches that are in the same places.
#[derive(Drop)]
struct Run {
    from: u8,
    to: u8,
    places: Vec<Place>,
}

impl fmt::Display for Run {
    ghost output = { λ r. Some (run_text r) };

    fn fmt<W: fmt::Write>(&self, f: &mut fmt::Formatter<W>) -> fmt::Result {
        write!(f, "{}-{} ", self.from, self.to)?;
        let Some((first, others)) = self.places.split_first() else {
            return f.write_str("none");
        };
        write!(f, "{first}")?;
        for place in others {
            write!(f, "+{place}")?;
        }
        Ok(())
    }
}

// The longest runs of stretches of a seat that are in the same places.
fn runs_of(heap: Global, world: &World, row: Row, seat: Seat) -> Result<Vec<Run>, AllocError> {
    let mut runs: Vec<Run> = Vec::new(heap);
    for from in 0..row.stops - 1 {
        let stretch = Stretch {
            train: row.train,
            seat,
            stop: Stop(from),
        };
        let places = world.find(heap, stretch)?;
        let to = from + 1;
        match runs.last_mut() {
            Some(run) if run.places == places => run.to = to,
            _ => runs.push(Run { from, to, places })?,
        }
    }
    Ok(runs)
}

// A seat's line.
fn write_seat(
    heap: Global,
    world: &World,
    row: Row,
    seat: Seat,
    page: &mut String,
) -> Result<(), AllocError> {
    write!(page, "{} {seat}:", row.train)?;
    for (index, run) in runs_of(heap, world, row, seat)?.iter().enumerate() {
        let comma = if index == 0 { "" } else { "," };
        write!(page, "{comma} {run}")?;
    }
    page.push_str("\n")
}

// Whether a station has the train open.
fn is_open_anywhere(world: &World, train: Train) -> bool {
    (0..world.stations()).any(|k| {
        world
            .station(StationId(k))
            .is_some_and(|station| station.is_open(train))
    })
}

// The lines of a train's seats, if a station has it open.
pub fn write_train(
    heap: Global,
    world: &World,
    train: Train,
    page: &mut String,
) -> Result<(), AllocError> {
    if !is_open_anywhere(world, train) {
        return Ok(());
    }
    let Some(row) = world.row(train) else {
        return Ok(());
    };
    for seat in 0..row.seats {
        write_seat(heap, world, row, Seat(seat), page)?;
    }
    Ok(())
}
