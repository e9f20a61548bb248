use crate::change::{PutBack, TakeOut};
use crate::memory::{Memory, Slot};
use crate::names::{Seat, Stop, Train};
use crate::piece::Piece;
use crate::profile::Profile;
use crate::seats::{change, full};
use crate::tally::Tally;
use crate::trip::Trip;
use crate::words::leftover;
use std::test::Fail;

fn trip_of(from: u8, to: u8) -> Result<Trip, Fail> {
    Trip::new(Stop(from), Stop(to)).ok_or_else(|| Fail::new("no trip"))
}

#[test]
fn takes_out_and_puts_back(rt: HostRuntime) -> Result<(), Fail> {
    let trip = trip_of(1, 3)?;
    let mut seats = [0b0010, full(5), full(5)];
    change::<TakeOut>(&mut seats, Seat(1), trip);
    assert_eq!(rt; seats[1], 0b1001);
    assert_eq!(rt; leftover(seats[2], trip), Some(2));
    assert_eq!(rt; Profile::count(&seats).held[1], 2);
    assert_eq!(rt; Tally::count(&seats, 5), Tally { whole: 1, any: 3 });
    change::<PutBack>(&mut seats, Seat(1), trip);
    assert_eq!(rt; seats[1], full(5));
    Ok(())
}

#[test]
fn cuts_a_piece(rt: HostRuntime) -> Result<(), Fail> {
    let whole = trip_of(0, 4)?;
    let trip = trip_of(0, 3)?;
    let rest = trip_of(3, 4)?;
    let piece = Piece::new(Train(7), Seat(2), whole);
    assert_eq!(rt;
        piece.cut(trip),
        Some((None, Some(Piece::new(Train(7), Seat(2), rest))))
    );
    Ok(())
}

#[test]
fn opens_a_train(rt: HostRuntime) -> Result<(), Fail> {
    let trip = trip_of(1, 3)?;
    let Some(slot) = Slot::new(63) else {
        return Err(Fail::new("no slot"));
    };
    assert_eq!(rt; Slot::new(64), None);
    let mut memory = Memory::new(rt.alloc())?;
    assert_eq!(rt; memory.covers(slot, Seat(0), trip), false);
    memory.open(slot, 2, full(5));
    memory.change::<TakeOut>(slot, Seat(0), trip);
    assert_eq!(rt; memory.covers(slot, Seat(0), trip), false);
    assert_eq!(rt; memory.covers(slot, Seat(1), trip), true);
    assert_eq!(rt; memory.holds(slot, Seat(0), Stop(3)), true);
    assert_eq!(rt; memory.train(slot)[1], full(5));
    assert_eq!(rt; memory.tally(slot, 5), Tally { whole: 1, any: 2 });
    memory.change_all::<PutBack>(slot, &[Seat(0), Seat(2)], trip);
    assert_eq!(rt; memory.covers(slot, Seat(0), trip), true);
    assert_eq!(rt; memory.covers(slot, Seat(400), trip), false);
    Ok(())
}
