// What comes to a station: it is done, and what it writes of it stands behind the bytes of its file. All memory is found first: for want of it nothing
// is changed.
ghost use Rattle.std.specs.Prelude.{◌≡◌, ◌+◌, ◌≤◌, true, false, ◌⊎◌, IfErr, ◌++◌, length, vec_len, vec_capacity};
ghost use Rattle.asking.specs.Events.{resolved};
ghost use Rattle.asking.specs.Replies.{lasting, minded, spoken, written, Scarce};
ghost use Rattle.files.specs.Bytes.{AllSound, journal_bytes};
ghost use Rattle.ledger.specs.Calls.{Filled, ShortOpen};
ghost use Rattle.ledger.specs.Decisions.{after, decided_open, for_memory, listing, records};
ghost use Rattle.lines.specs.Reading.{message};
ghost use Rattle.receiving.specs.Incoming.{incoming, sender};
ghost use Rattle.receiving.specs.Verdicts.{judged, verdict_of};
ghost use Rattle.recovery.specs.Machines.{mind_in, shown};
ghost use Rattle.timetable.specs.Tables.{table as rows_of};

use super::Machine;
use asking::event::{Event, Reply};
use files::writing::write_all;
use giving::message::Message;
use giving::refusal::Refusal;
use ledger::calls;
use ledger::input::Outcome;
use receiving::incoming::incoming;
use state::record::Record;
use timetable::row::Row;
use timetable::timetable::Timetable;

// No step writes more bytes: eight pieces that are given have 18 each.
const STEP: usize = 144;

// Writes the records of a step behind the bytes of the file, for which there is room.
fn write_down(file: &mut Vec<u8>, records: &mut Vec<Record>)
    requires { vec_len file.old + length (journal_bytes records.old.items) ≤ vec_capacity file.old }
    ensures written { file.new.items ≡ file.old.items ++ journal_bytes records.old.items }
    ensures none { vec_len records.new ≡ 0 }
{
    write_all(file, records);
    records.clear();
}

impl Machine {
    // A call, a message or a tick.
    pub fn handle(
        &mut self,
        trains: &Timetable,
        file: &mut Vec<u8>,
        out: &mut Vec<Message>,
        event: Event,
    ) -> Result<Reply, Refusal>
        ensures state { shown self.new ≡ lasting (rows_of trains.now) (shown self.old) result }
        ensures written { file.new.items ≡ file.old.items ++ journal_bytes (written (shown self.old) result) }
        ensures sound { AllSound (written (shown self.old) result) }
        ensures mind { mind_in self.new ≡ minded (shown self.old) (mind_in self.old) event result }
        ensures said { out.new.items ≡ out.old.items ++ spoken (rows_of trains.now) (shown self.new) (mind_in self.new) event result }
        ensures answer { for_memory result ≡ false → result ≡ resolved (rows_of trains.now) (shown self.old) (mind_in self.old) event }
        ensures memory { for_memory result ≡ true → Scarce (rows_of trains.now) self.old.station self.old.records out.old self.old.desk event (resolved (rows_of trains.now) (shown self.old) (mind_in self.old) event) ⊎ Filled file.old 144 }
    {
        file.reserve(STEP)?;
        let reply = self
            .desk
            .handle(&mut self.station, trains, &mut self.records, out, event);
        write_down(file, &mut self.records);
        reply
    }

    // Bytes that came over a line, whatever they are and from whomever: they are taken, passed over or turned away.
    pub fn receive(
        &mut self,
        trains: &Timetable,
        file: &mut Vec<u8>,
        out: &mut Vec<Message>,
        from: u32,
        bytes: &[u8],
    ) -> Result<Reply, Refusal>
        ensures state { shown self.new ≡ lasting (rows_of trains.now) (shown self.old) result }
        ensures written { file.new.items ≡ file.old.items ++ journal_bytes (written (shown self.old) result) }
        ensures sound { AllSound (written (shown self.old) result) }
        ensures mind { mind_in self.new ≡ minded (shown self.old) (mind_in self.old) (incoming (shown self.old).me from bytes.now) result }
        ensures said { out.new.items ≡ out.old.items ++ spoken (rows_of trains.now) (shown self.new) (mind_in self.new) (incoming (shown self.old).me from bytes.now) result }
        ensures answer { for_memory result ≡ false → result ≡ resolved (rows_of trains.now) (shown self.old) (mind_in self.old) (incoming (shown self.old).me from bytes.now) }
        ensures verdict { for_memory result ≡ false → verdict_of result ≡ judged (rows_of trains.now) (shown self.old) (mind_in self.old) (sender (shown self.old).me from) (message bytes.now) }
        ensures away { IfErr result (λ _. (shown self.new ≡ shown self.old) × (mind_in self.new ≡ mind_in self.old) × (file.new.items ≡ file.old.items) × (out.new.items ≡ out.old.items)) }
        ensures memory { for_memory result ≡ true → Scarce (rows_of trains.now) self.old.station self.old.records out.old self.old.desk (incoming (shown self.old).me from bytes.now) (resolved (rows_of trains.now) (shown self.old) (mind_in self.old) (incoming (shown self.old).me from bytes.now)) ⊎ Filled file.old 144 }
    {
        let event = incoming(self.station.me(), from, bytes);
        self.handle(trains, file, out, event)
    }

    // Opens a train with its row, which the timetable then has.
    pub fn open(
        &mut self,
        trains: &mut Timetable,
        file: &mut Vec<u8>,
        row: Row,
    ) -> Result<Outcome, Refusal>
        ensures state { shown self.new ≡ after (rows_of trains.new) (shown self.old) result }
        ensures listed { rows_of trains.new ≡ listing (rows_of trains.old) row result }
        ensures written { file.new.items ≡ file.old.items ++ journal_bytes (records result) }
        ensures sound { AllSound (records result) }
        ensures mind { mind_in self.new ≡ mind_in self.old }
        ensures answer { for_memory result ≡ false → result ≡ decided_open (rows_of trains.old) (shown self.old) row }
        ensures memory { for_memory result ≡ true → ShortOpen self.old.station self.old.records (rows_of trains.old row.train.0) (decided_open (rows_of trains.old) (shown self.old) row) ⊎ Filled file.old 144 }
    {
        file.reserve(STEP)?;
        let outcome = calls::open(&mut self.station, trains, &mut self.records, row);
        write_down(file, &mut self.records);
        outcome
    }
}
