// Records written behind the bytes of a buffer that has room for them.
ghost use Rattle.std.specs.Prelude.{◌≡◌, ◌+◌, ◌*◌, ◌≤◌, ◌∷◌, ◌++◌, length, drop, vec_len, vec_capacity};
ghost use Rattle.std.specs.List.{flat_map};
ghost use Rattle.choosing.specs.Parties.{seats_of};
ghost use Rattle.state.specs.declared.record.Record.TheVariants.{Given, Sold};
ghost use Rattle.files.specs.Bytes.{journal_bytes, record_bytes, seat_bytes};
ghost use Rattle.lines.specs.Bytes.{long};

use choosing::party::Party;
use giving::ids::{Ask, Number, StationId, Ticket};
use lines::writing::{given, piece_bytes};
use pieces::piece::Piece;
use state::record::Record;

fn put(out: &mut Vec<u8>, bytes: &[u8])
    requires { vec_len out.old + length bytes.now ≤ vec_capacity out.old }
    ensures items { out.new.items ≡ out.old.items ++ bytes.now }
    ensures len { vec_len out.new ≡ vec_len out.old + length bytes.now }
    ensures capacity { vec_capacity out.old ≤ vec_capacity out.new }
{
    out.extend_from_slice(bytes).unwrap();
}

// The record that a piece is taken, from the message that gave it.
pub fn write_taken(out: &mut Vec<u8>, from: StationId, message: &[u8; 13])
    requires { vec_len out.old + 14 ≤ vec_capacity out.old }
    ensures items { out.new.items ≡ out.old.items ++ 9 ∷ from.0 ∷ drop 1 message.now }
    ensures len { vec_len out.new ≡ vec_len out.old + 14 }
    ensures capacity { vec_capacity out.old ≤ vec_capacity out.new }
{
    put(out, &[9, from.0]);
    put(out, &message[1..13]);
}

fn write_pieces(out: &mut Vec<u8>, party: Party)
    requires { vec_len out.old + 8 * length (seats_of party) ≤ vec_capacity out.old }
    ensures items { out.new.items ≡ out.old.items ++ flat_map (seat_bytes party.train party.trip) (seats_of party) }
    ensures len { vec_len out.new ≡ vec_len out.old + 8 * length (seats_of party) }
    ensures capacity { vec_capacity out.old ≤ vec_capacity out.new }
{
    for seat in party.seats() {
        put(
            out,
            &piece_bytes(Piece::new(party.train, *seat, party.trip)),
        );
    }
}

// A kind and a number of four bytes.
fn write_word(out: &mut Vec<u8>, kind: u8, number: u32)
    requires { vec_len out.old + 5 ≤ vec_capacity out.old }
    ensures items { out.new.items ≡ out.old.items ++ kind ∷ long number }
    ensures len { vec_len out.new ≡ vec_len out.old + 5 }
    ensures capacity { vec_capacity out.old ≤ vec_capacity out.new }
{
    put(out, &[kind]);
    put(out, &number.to_be_bytes());
}

// A kind, a station, and a number of four bytes.
fn write_station(out: &mut Vec<u8>, kind: u8, station: StationId, number: u32)
    requires { vec_len out.old + 6 ≤ vec_capacity out.old }
    ensures items { out.new.items ≡ out.old.items ++ kind ∷ station.0 ∷ long number }
    ensures len { vec_len out.new ≡ vec_len out.old + 6 }
    ensures capacity { vec_capacity out.old ≤ vec_capacity out.new }
{
    put(out, &[kind, station.0]);
    put(out, &number.to_be_bytes());
}

fn write_sold(out: &mut Vec<u8>, ticket: Ticket, party: Party)
    requires { vec_len out.old + (6 + 8 * length (seats_of party)) ≤ vec_capacity out.old }
    ensures items { out.new.items ≡ out.old.items ++ record_bytes (Sold ticket party) }
    ensures len { vec_len out.new ≡ vec_len out.old + (6 + 8 * length (seats_of party)) }
    ensures capacity { vec_capacity out.old ≤ vec_capacity out.new }
{
    write_word(out, 6, ticket.0);
    put(out, &[party.len() as u8]);
    write_pieces(out, party);
}

fn write_given(out: &mut Vec<u8>, to: StationId, number: Number, ask: Ask, piece: Piece)
    requires { vec_len out.old + 18 ≤ vec_capacity out.old }
    ensures items { out.new.items ≡ out.old.items ++ record_bytes (Given to number ask piece) }
    ensures len { vec_len out.new ≡ vec_len out.old + 18 }
    ensures capacity { vec_capacity out.old ≤ vec_capacity out.new }
{
    write_station(out, 8, to, number.0);
    put(out, &ask.0.to_be_bytes());
    put(out, &piece_bytes(piece));
}

// One record, behind what is there.
pub fn write(out: &mut Vec<u8>, entry: Record)
    requires { vec_len out.old + length (record_bytes entry) ≤ vec_capacity out.old }
    ensures items { out.new.items ≡ out.old.items ++ record_bytes entry }
    ensures len { vec_len out.new ≡ vec_len out.old + length (record_bytes entry) }
    ensures capacity { vec_capacity out.old ≤ vec_capacity out.new }
{
    match entry {
        Record::Sold(ticket, party) => write_sold(out, ticket, party),
        Record::Undone(ticket) => write_word(out, 7, ticket.0),
        Record::Given(to, number, ask, piece) => write_given(out, to, number, ask, piece),
        Record::Taken(from, number, piece) => {
            write_taken(out, from, &given(number, piece));
        }
        Record::Opened(train) => write_word(out, 10, train.0),
        Record::Closed(train) => write_word(out, 11, train.0),
        Record::Heard(from, number) => write_station(out, 12, from, number.0),
        Record::Asked(ask) => write_word(out, 20, ask.0),
        Record::Declined(to, ask) => write_station(out, 21, to, ask.0),
    }
}

// Several records, one behind the other.
pub fn write_all(out: &mut Vec<u8>, records: &[Record])
    requires { vec_len out.old + length (journal_bytes records.now) ≤ vec_capacity out.old }
    ensures items { out.new.items ≡ out.old.items ++ journal_bytes records.now }
    ensures len { vec_len out.new ≡ vec_len out.old + length (journal_bytes records.now) }
    ensures capacity { vec_capacity out.old ≤ vec_capacity out.new }
{
    for entry in records {
        write(out, *entry);
    }
}
