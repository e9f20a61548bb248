// The calls of a station. What is decided is written to the journal, then done, and then said.
// All memory for it is found first: for want of it nothing is changed.
ghost use Rattle.std.specs.Prelude.{◌≡◌, ◌+◌, ◌<◌, ◌≤◌, true, false, [], ◌∷◌, ◌++◌, length, vec_len, vec_capacity, fold, MatchResult, Ok};
ghost use Rattle.choosing.specs.Parties.{pieces_of, seats_of};
ghost use Rattle.giving.specs.declared.refusal.Refusal.TheVariants.{Memory};
ghost use Rattle.ledger.specs.Calls.{Filled, Numbered, ReadyFor, Short, ShortOpen, Unwritten};
ghost use Rattle.ledger.specs.Decisions.{after, decided, decided_open, entries, for_memory, gifts, listing, messages, records, DecidedFits};
ghost use Rattle.ledger.specs.Laws.{SellsBack};
ghost use Rattle.state.specs.Changes.{all_fit, apply, fits};
ghost use Rattle.state.specs.Ready.{Ready};
ghost use Rattle.state.specs.Views.{view};
ghost use Rattle.timetable.specs.Tables.{table as rows_of};

use crate::decide::{decide, decide_open};
use crate::input::{Input, Outcome};
use crate::reply::{said_count, say};
use choosing::party::Party;
use giving::ids::{Ask, Number, StationId};
use giving::message::Message;
use giving::refusal::Refusal;
use pieces::piece::Piece;
use state::record::Record;
use state::station::Station;
use timetable::row::Row;
use timetable::timetable::Timetable;

// Finds the memory for what is said.
fn make_room(out: &mut Vec<Message>, count: usize) -> Result<(), Refusal>
    ensures same { out.new.items ≡ out.old.items }
    ensures capacity { vec_capacity out.old ≤ vec_capacity out.new }
    ensures cases { MatchResult result (λ _. vec_len out.new + count ≤ vec_capacity out.new) (λ e. (e ≡ Memory) × Filled out.old count) }
{
    out.reserve(count)?;
    Ok(())
}

// How many records an outcome has.
fn record_count(outcome: Outcome) -> usize
    ensures { result ≡ length (entries outcome) }
{
    match outcome {
        Outcome::Done(_) => 1,
        Outcome::Gave(_, _, _, party) => party.len(),
        _ => 0,
    }
}

// Finds the memory for what is decided.
fn make_ready(
    station: &mut Station,
    journal: &mut Vec<Record>,
    outcome: Outcome,
) -> Result<(), Refusal>
    ensures state { view station.new ≡ view station.old }
    ensures same { journal.new.items ≡ journal.old.items }
    ensures cases { MatchResult result (λ _. ReadyFor station.new outcome × (vec_len journal.new + length (entries outcome) ≤ vec_capacity journal.new)) (λ e. (e ≡ Memory) × Unwritten station.old journal.old outcome) }
{
    if let Outcome::Done(entry) = outcome {
        station.reserve(entry)?;
    }
    journal.reserve(record_count(outcome))?;
    Ok(())
}

// Writes a record that fits to the journal, and makes its change.
fn write(station: &mut Station, table: &Timetable, journal: &mut Vec<Record>, entry: Record)
    requires fits { fits (rows_of table.now) (view station.old) entry ≡ true }
    requires ready { Ready station.old entry }
    requires room { vec_len journal.old < vec_capacity journal.old }
    ensures state { view station.new ≡ apply (rows_of table.now) (view station.old) entry }
    ensures written { journal.new.items ≡ journal.old.items ++ entry ∷ [] }
    ensures room { (vec_len journal.new ≡ vec_len journal.old + 1) × (vec_capacity journal.new ≡ vec_capacity journal.old) }
{
    journal.push_reserved(entry);
    station.apply(table, entry);
}

// Writes the pieces of a party as given, one after the other, and makes the change of each.
fn write_gifts(
    station: &mut Station,
    table: &Timetable,
    journal: &mut Vec<Record>,
    to: StationId,
    first: Number,
    ask: Ask,
    party: &Party,
)
    requires fits { all_fit (rows_of table.now) (view station.old) (gifts to ask first.0 (pieces_of party.now)) ≡ true }
    requires room { vec_len journal.old + length (seats_of party.now) ≤ vec_capacity journal.old }
    requires numbered { first.0 + length (seats_of party.now) ≤ 4294967296 }
    ensures state { view station.new ≡ fold (apply (rows_of table.now)) (view station.old) (gifts to ask first.0 (pieces_of party.now)) }
    ensures written { journal.new.items ≡ journal.old.items ++ gifts to ask first.0 (pieces_of party.now) }
{
    for (k, seat) in party.seats().iter().enumerate() {
        let piece = Piece::new(party.train, *seat, party.trip);
        let number = Number(first.0 + k as u32);
        write(
            station,
            table,
            journal,
            Record::Given(to, number, ask, piece),
        );
    }
}

// Writes and does what is decided, for which there is memory.
fn settle(station: &mut Station, table: &Timetable, journal: &mut Vec<Record>, outcome: Outcome)
    requires fits { all_fit (rows_of table.now) (view station.old) (entries outcome) ≡ true }
    requires ready { ReadyFor station.old outcome }
    requires room { vec_len journal.old + length (entries outcome) ≤ vec_capacity journal.old }
    requires numbered { Numbered outcome }
    ensures state { view station.new ≡ after (rows_of table.now) (view station.old) (Ok outcome) }
    ensures written { journal.new.items ≡ journal.old.items ++ entries outcome }
{
    match outcome {
        Outcome::Done(entry) => write(station, table, journal, entry),
        Outcome::Gave(to, first, ask, party) => {
            write_gifts(station, table, journal, to, first, ask, &party);
        }
        Outcome::Nothing | Outcome::Passed(_) => {}
    }
}

// A call: decides, writes what is decided to the journal, does it, and says what is to be said of it.
pub fn call(
    station: &mut Station,
    table: &Timetable,
    journal: &mut Vec<Record>,
    out: &mut Vec<Message>,
    input: Input,
) -> Result<Outcome, Refusal>
    ensures state { view station.new ≡ after (rows_of table.now) (view station.old) result }
    ensures written { journal.new.items ≡ journal.old.items ++ records result }
    ensures said { out.new.items ≡ out.old.items ++ messages (view station.new) input result }
    ensures capacity { vec_capacity out.old ≤ vec_capacity out.new }
    ensures answer { for_memory result ≡ false → result ≡ decided (rows_of table.now) (view station.old) input }
    ensures memory { for_memory result ≡ true → Short station.old journal.old out.old input (decided (rows_of table.now) (view station.old) input) }
{
    let outcome = decide(station, table, input)?;
    make_room(out, said_count(input, outcome))?;
    make_ready(station, journal, outcome)?;
    settle(station, table, journal, outcome);
    say(station, out, input, outcome);
    Ok(outcome)
}

// Opens a train with its row, which the timetable then has.
pub fn open(
    station: &mut Station,
    table: &mut Timetable,
    journal: &mut Vec<Record>,
    row: Row,
) -> Result<Outcome, Refusal>
    ensures state { view station.new ≡ after (rows_of table.new) (view station.old) result }
    ensures listed { rows_of table.new ≡ listing (rows_of table.old) row result }
    ensures written { journal.new.items ≡ journal.old.items ++ records result }
    ensures answer { for_memory result ≡ false → result ≡ decided_open (rows_of table.old) (view station.old) row }
    ensures memory { for_memory result ≡ true → ShortOpen station.old journal.old (rows_of table.old row.train.0) (decided_open (rows_of table.old) (view station.old) row) }
{
    let outcome = decide_open(station, table, row)?;
    let Outcome::Done(entry) = outcome else {
        return Ok(outcome);
    };
    make_ready(station, journal, outcome)?;
    table.add(row)?;
    write(station, table, journal, entry);
    Ok(outcome)
}

// A ticket that was sold can be undone, and then the state is as before, but for the ticket's number.
pub fn undoing_stands()
    ensures { SellsBack }
{}

// What is decided fits the state that it is decided by.
pub fn decisions_stand()
    ensures { DecidedFits }
{}
