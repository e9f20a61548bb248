// What comes to a station, and how it falls and comes up again.
ghost use Rattle.std.specs.Prelude.{◌≡◌, ℕ, ◌≤◌, ◌+◌, ◌⊎◌, true, false, None, ◌++◌, take, length, vec_len, MatchResult};
ghost use Rattle.asking.specs.Events.{Response, resolved};
ghost use Rattle.asking.specs.Replies.{lasting, minded, spoken, written, Scarce};
ghost use Rattle.files.specs.Bytes.{AllSound, journal_bytes};
ghost use Rattle.ledger.specs.Calls.{Filled, ShortOpen};
ghost use Rattle.ledger.specs.Decisions.{Answer, after, decided_open, for_memory, listing, records};
ghost use Rattle.rehearsal.specs.Comings.{event_in};
ghost use Rattle.rehearsal.specs.Lives.{shown, mind_in};
ghost use Rattle.rehearsal.specs.Restarts.{Restarted, FellIn, FellOpening, Unchanged};
ghost use Rattle.timetable.specs.Tables.{table};

use super::Post;
use crate::coming::Coming;
use asking::event::Reply;
use files::whole::whole;
use giving::message::Message;
use giving::refusal::Refusal;
use ledger::input::Outcome;
use recovery::machine::Machine;
use std::alloc::{AllocError, Global};
use timetable::row::Row;
use timetable::timetable::Timetable;

impl Post {
    pub fn handle(
        &mut self,
        trains: &Timetable,
        out: &mut Vec<Message>,
        coming: Coming<'_>,
    ) -> Result<Reply, Refusal>
        ensures state { shown self.new ≡ lasting (table trains.now) (shown self.old) result }
        ensures written { self.new.file.items ≡ self.old.file.items ++ journal_bytes (written (shown self.old) result) }
        ensures sound { AllSound (written (shown self.old) result) }
        ensures mind { mind_in self.new ≡ minded (shown self.old) (mind_in self.old) (event_in (shown self.old).me coming.entry) result }
        ensures said { out.new.items ≡ out.old.items ++ spoken (table trains.now) (shown self.new) (mind_in self.new) (event_in (shown self.old).me coming.entry) result }
        ensures cut { self.new.cut ≡ self.old.cut }
        ensures answer { for_memory result ≡ false → result ≡ resolved (table trains.now) (shown self.old) (mind_in self.old) (event_in (shown self.old).me coming.entry) }
        ensures memory { for_memory result ≡ true → Scarce (table trains.now) self.old.machine.station self.old.machine.records out.old self.old.machine.desk (event_in (shown self.old).me coming.entry) (resolved (table trains.now) (shown self.old) (mind_in self.old) (event_in (shown self.old).me coming.entry)) ⊎ Filled self.old.file 144 }
    {
        match coming {
            Coming::Request(request) => {
                self.machine
                    .handle(trains, &mut self.file, out, request.into())
            }
            Coming::Bytes { from, bytes } => {
                self.machine
                    .receive(trains, &mut self.file, out, from, bytes)
            }
        }
    }

    pub fn open(&mut self, trains: &mut Timetable, row: Row) -> Result<Outcome, Refusal>
        ensures state { shown self.new ≡ after (table trains.new) (shown self.old) result }
        ensures listed { table trains.new ≡ listing (table trains.old) row result }
        ensures written { self.new.file.items ≡ self.old.file.items ++ journal_bytes (records result) }
        ensures sound { AllSound (records result) }
        ensures mind { mind_in self.new ≡ mind_in self.old }
        ensures cut { self.new.cut ≡ self.old.cut }
        ensures answer { for_memory result ≡ false → result ≡ decided_open (table trains.old) (shown self.old) row }
        ensures memory { for_memory result ≡ true → ShortOpen self.old.machine.station self.old.machine.records (table trains.old row.train.0) (decided_open (table trains.old) (shown self.old) row) ⊎ Filled self.old.file 144 }
    {
        self.machine.open(trains, &mut self.file, row)
    }

    // The power is cut and comes back, and the first bytes of the file are there, so many of them. Where there is no memory to come up
    // nothing is changed.
    pub fn restart(
        &mut self,
        heap: Global,
        trains: &Timetable,
        bytes: usize,
    ) -> Result<(), AllocError>
        ensures { MatchResult result (λ _. Restarted (table trains.now) (length (shown self.old).channels) (shown self.old).me (take bytes self.old.file.items) self.new) (λ _. Unchanged self.old self.new) }
    {
        let there = whole(&self.file[..bytes.min(self.file.len())]);
        let kept = there.len();
        let station = &self.machine.station;
        let Ok(machine) = Machine::come_up(
            heap,
            station.me(),
            station.stations() as u16,
            trains,
            there,
        ) else {
            return Err(AllocError);
        };
        self.file.truncate(kept);
        self.machine = machine;
        self.cut = None;
        Ok(())
    }

    // The power is cut in the midst of what comes to a station, with so many bytes of it on the file: nothing of it is said or answered.
    pub fn fall(
        &mut self,
        heap: Global,
        trains: &Timetable,
        said: &mut Vec<Message>,
        coming: Coming<'_>,
        bytes: u32,
    ) -> Result<(), AllocError>
        ensures fell { FellIn (table trains.now) said.old self.old (event_in (shown self.old).me coming.entry) bytes self.new result }
        ensures said { said.new.items ≡ said.old.items }
    {
        let before = self.file.len();
        let spoken = said.len();
        let _ = self.handle(trains, said, coming);
        said.truncate(spoken);
        self.restart(heap, trains, before + bytes as usize)
    }

    // The same in the midst of an opening: the timetable keeps the train's row.
    pub fn fall_opening(
        &mut self,
        heap: Global,
        trains: &mut Timetable,
        row: Row,
        bytes: u32,
    ) -> Result<(), AllocError>
        ensures { FellOpening (table trains.old) self.old row bytes (table trains.new) self.new result }
    {
        let before = self.file.len();
        let _ = self.open(trains, row);
        self.restart(heap, trains, before + bytes as usize)
    }
}
