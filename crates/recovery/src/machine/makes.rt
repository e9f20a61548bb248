// Stations that begin, and that come up again.
ghost use Rattle.std.specs.Prelude.{◌≡◌, ◌≤◌, ◌⊎◌, IfErr, IfOk, Ok, Err};
ghost use Rattle.asking.specs.Minds.{empty};
ghost use Rattle.giving.specs.declared.refusal.Refusal.TheVariants.{Malformed, Memory};
ghost use Rattle.recovery.specs.Machines.{mind_in, shown};
ghost use Rattle.recovery.specs.Rising.{risen};
ghost use Rattle.state.specs.States.{begun};
ghost use Rattle.timetable.specs.Tables.{table as rows_of};

use super::Machine;
use crate::replay::replay;
use asking::desk::Desk;
use giving::ids::StationId;
use giving::refusal::Refusal;
use state::station::Station;
use std::alloc::{AllocError, Global};
use timetable::timetable::Timetable;

impl Machine {
    // Station `me` of so many, which has done nothing yet and has nothing in mind.
    pub fn new(heap: Global, me: StationId, stations: u16) -> Result<Machine, AllocError>
        requires { stations ≤ 256 }
        ensures { IfOk result (λ m. (shown m ≡ begun stations me.0) × (mind_in m ≡ empty)) }
    {
        Ok(Machine {
            station: Station::new(heap, me, stations)?,
            desk: Desk::new(heap)?,
            records: Vec::new(heap),
        })
    }

    // Station `me` of so many, which comes up with its file. What it had in mind is gone.
    pub fn come_up(
        heap: Global,
        me: StationId,
        stations: u16,
        table: &Timetable,
        file: &[u8],
    ) -> Result<Machine, Refusal>
        requires { stations ≤ 256 }
        ensures ok { IfOk result (λ m. (risen (rows_of table.now) (begun stations me.0) file.now ≡ Ok (shown m)) × (mind_in m ≡ empty)) }
        ensures err { IfErr result (λ e. (e ≡ Memory) ⊎ ((e ≡ Malformed) × (risen (rows_of table.now) (begun stations me.0) file.now ≡ Err Malformed))) }
    {
        let mut machine = Machine::new(heap, me, stations)?;
        replay(&mut machine.station, table, file)?;
        Ok(machine)
    }
}
