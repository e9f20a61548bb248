use crate::choice::{
    choose, choose_all, choose_all_at, choose_beside_at, lowest_held, lowest_held_at,
};
use pieces::memory::{Memory, Slot};
use pieces::names::{Seat, Stop, Train};
use pieces::trip::Trip;
use std::test::Fail;

fn trip_of(from: u8, to: u8) -> Result<Trip, Fail> {
    Trip::new(Stop(from), Stop(to)).ok_or_else(|| Fail::new("no trip"))
}

#[test]
fn takes_what_leaves_least(rt: HostRuntime) -> Result<(), Fail> {
    // Seat 0 is held from 0 to 3, seat 1 from 0 to 6.
    let trip = trip_of(0, 3)?;
    let words = [0b000111, 0b111111];
    assert_eq!(rt; choose(&words, trip, &[]), Some(Seat(0)));
    assert_eq!(rt; choose(&words, trip, &[Seat(0)]), Some(Seat(1)));
    Ok(())
}

#[test]
fn takes_the_lower_of_two(rt: HostRuntime) -> Result<(), Fail> {
    let trip = trip_of(1, 3)?;
    let words = [0b1111, 0b0110, 0b0110];
    assert_eq!(rt; choose(&words, trip, &[]), Some(Seat(1)));
    assert_eq!(rt; choose_all(&words, Train(7), trip, 8).len(), 3);
    Ok(())
}

#[test]
fn keeps_a_seat_back(rt: HostRuntime) -> Result<(), Fail> {
    let trip = trip_of(1, 3)?;
    let Some(slot) = Slot::new(2) else {
        return Err(Fail::new("no slot"));
    };
    assert_eq!(rt; lowest_held(&[0, 0b10, 0b01]), Some(Seat(1)));
    let mut memory = Memory::new(rt.alloc())?;
    assert_eq!(rt; lowest_held_at(&memory, slot), None);
    memory.open(slot, 3, 0b1111);
    let kept = lowest_held_at(&memory, slot);
    assert_eq!(rt; kept, Some(Seat(0)));
    let party = choose_beside_at(&memory, slot, 3, kept, Train(7), trip, 8);
    assert_eq!(rt; party.seats(), [Seat(1), Seat(2)].as_slice());
    let all = choose_beside_at(&memory, slot, 3, None, Train(7), trip, 8);
    assert_eq!(rt;
        all.seats(),
        choose_all_at(&memory, slot, 3, Train(7), trip, 8).seats()
    );
    Ok(())
}
