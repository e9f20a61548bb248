// The timetable that all stations have: of each train its seats, its stops, and which station has all of it at first.
#![tactic(auto)]

pub mod row;
pub mod timetable;
