// What a station decides, by its state and the timetable alone, and what it does.
#![tactic(auto)]

pub mod calls;
pub mod decide;
pub mod input;
pub mod lost;
pub mod reply;
