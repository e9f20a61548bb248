// The records of a file are applied again, one after the other.
ghost use Rattle.std.specs.Prelude.{◌≡◌, true, false, ◌⊎◌, IfErr, MatchResult, OnOk};
ghost use Rattle.giving.specs.declared.refusal.Refusal.TheVariants.{Malformed, Memory as Want};
ghost use Rattle.recovery.specs.Replays.{Finished, Stopped};
ghost use Rattle.state.specs.Changes.{apply, fits};
ghost use Rattle.state.specs.Ready.{Spent};
ghost use Rattle.state.specs.Views.{view};
ghost use Rattle.timetable.specs.Tables.{table as rows_of};

use files::reading::read;
use files::whole::{is_cut, whole};
use giving::refusal::Refusal;
use state::record::Record;
use state::station::Station;
use timetable::timetable::Timetable;

// Makes the change of a record that fits, for which the memory is found first.
fn redo(station: &mut Station, table: &Timetable, entry: Record) -> Result<(), Refusal>
    ensures ok { OnOk result ((fits (rows_of table.now) (view station.old) entry ≡ true) × (view station.new ≡ apply (rows_of table.now) (view station.old) entry)) }
    ensures same { IfErr result (λ _. view station.new ≡ view station.old) }
    ensures why { IfErr result (λ e. ((e ≡ Malformed) × (fits (rows_of table.now) (view station.old) entry ≡ false))
        ⊎ ((e ≡ Want) × (fits (rows_of table.now) (view station.old) entry ≡ true) × Spent station.new entry)) }
{
    if !station.fits(table, entry) {
        return Err(Refusal::Malformed);
    }
    station.reserve(entry)?;
    station.apply(table, entry);
    Ok(())
}

// So many records were applied, which have so many bytes.
#[derive(Clone, Copy, Debug, PartialEq, Eq, Drop)]
pub struct Replayed {
    pub records: usize,
    pub bytes: usize,
}

// Applies the records of a file, or of a first part of it.
pub fn replay(station: &mut Station, table: &Timetable, file: &[u8]) -> Result<Replayed, Refusal>
    ensures { MatchResult result
        (λ done. Finished (rows_of table.now) (view station.old) file.now station.new done.records done.bytes)
        (Stopped (rows_of table.now) (view station.old) file.now station.new) }
{
    let whole = whole(file);
    let bytes = whole.len();
    if !is_cut(&file[bytes..]) {
        return Err(Refusal::Malformed);
    }
    let mut records = 0;
    let mut rest = whole;
    loop {
        let Ok((entry, behind)) = read(rest) else {
            return Ok(Replayed { records, bytes });
        };
        redo(station, table, entry)?;
        records += 1;
        rest = behind;
    }
}
