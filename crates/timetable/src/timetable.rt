// The rows by their trains.
use crate::row::Row;
use pieces::names::Train;
use std::collections::BTreeMap;

pub mod moves;

#[derive(Drop)]
pub struct Timetable {
    rows: BTreeMap<Train, Row>,
}
