// Looking up in the timetable, and putting rows into it.
ghost use Rattle.std.specs.Prelude.{◌≡◌, ℕ, ◌<◌, AllPairs, is_some, None, ◌==◌};
ghost use Rattle.std.specs.List.{list_any};
ghost use Rattle.pieces.specs.declared.names.Train.{Train as Run};
ghost use Rattle.timetable.specs.Additions.{empty, admitted, Added};
ghost use Rattle.timetable.specs.Rows.{listed};
ghost use Rattle.timetable.specs.Tables.{table};

use super::Timetable;
use crate::row::Row;
use giving::refusal::Refusal;
use pieces::names::Train;
use pieces::piece::Piece;
use std::alloc::Global;
use std::collections::BTreeMap;
use std::collections::btree_map::Keys;

impl Timetable {
    // A timetable with no row.
    pub fn new(heap: Global) -> Timetable
        ensures whole { table result ≡ empty }
        ensures each { (n : ℕ) → table result n ≡ None }
    {
        Timetable {
            rows: BTreeMap::new(heap),
        }
    }

    // The row of a train.
    pub fn row(&self, train: Train) -> Option<Row>
        ensures { result ≡ table self.now train.0 }
    {
        self.rows.get(&train).copied()
    }

    // The trains, by number.
    pub fn trains(&self) -> Keys<'_, Train, Row>
        ensures each { (t : Run) → list_any (λ (x : Run). x.0 == t.0) result ≡ is_some (table self.now t.0) }
        ensures ordered { AllPairs (λ (x y : Run). x.0 < y.0) result }
    {
        self.rows.keys()
    }

    // Whether the train of a piece is in the timetable, and has the piece.
    pub fn is_listed(&self, piece: Piece) -> bool
        ensures { result ≡ listed (table self.now piece.train.0) piece }
    {
        self.row(piece.train).is_some_and(|row| row.has(piece))
    }

    // Whether a row may be put in: its train has none yet, or this one.
    pub fn admits(&self, row: Row) -> bool
        ensures { result ≡ admitted (table self.now row.train.0) row }
    {
        self.row(row.train).is_none_or(|there| there == row)
    }

    // Puts a row in.
    pub fn add(&mut self, row: Row) -> Result<(), Refusal>
        ensures { Added (table self.old) row (table self.new) result }
    {
        if !self.admits(row) {
            return Err(Refusal::Malformed);
        }
        self.rows.insert(row.train, row)?;
        Ok(())
    }
}
