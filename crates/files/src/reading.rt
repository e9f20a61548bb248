// Records read from the front of some bytes.
ghost use Rattle.std.specs.Prelude.{◌<◌, IfOk, length};
ghost use Rattle.files.specs.Reading.{first, declined as declined_in, given as given_in, heard as heard_in, sold as sold_in, taken as taken_in, of_kind as kind_in};
ghost use Rattle.lines.specs.Fields.{Reads};

use crate::fields::{party, pieces};
use giving::ids::{Ask, Number, StationId, Ticket};
use lines::fault::Fault;
use lines::fields::{byte, piece, word};
use pieces::names::Train;
use state::record::Record;

fn sold(bytes: &[u8]) -> Result<(Record, &[u8]), Fault>
    ensures { Reads result (sold_in bytes.now) }
{
    let (ticket, rest) = word(bytes)?;
    let (pieces, rest) = pieces(rest)?;
    Ok((Record::Sold(Ticket(ticket), party(pieces)?), rest))
}

fn given(bytes: &[u8]) -> Result<(Record, &[u8]), Fault>
    ensures { Reads result (given_in bytes.now) }
{
    let (to, rest) = byte(bytes)?;
    let (number, rest) = word(rest)?;
    let (ask, rest) = word(rest)?;
    let (piece, rest) = piece(rest)?;
    Ok((
        Record::Given(StationId(to), Number(number), Ask(ask), piece),
        rest,
    ))
}

fn taken(bytes: &[u8]) -> Result<(Record, &[u8]), Fault>
    ensures { Reads result (taken_in bytes.now) }
{
    let (from, rest) = byte(bytes)?;
    let (number, rest) = word(rest)?;
    let (piece, rest) = piece(rest)?;
    Ok((Record::Taken(StationId(from), Number(number), piece), rest))
}

fn heard(bytes: &[u8]) -> Result<(Record, &[u8]), Fault>
    ensures { Reads result (heard_in bytes.now) }
{
    let (from, rest) = byte(bytes)?;
    let (number, rest) = word(rest)?;
    Ok((Record::Heard(StationId(from), Number(number)), rest))
}

fn declined(bytes: &[u8]) -> Result<(Record, &[u8]), Fault>
    ensures { Reads result (declined_in bytes.now) }
{
    let (to, rest) = byte(bytes)?;
    let (ask, rest) = word(rest)?;
    Ok((Record::Declined(StationId(to), Ask(ask)), rest))
}

// What a record of a kind says.
fn of_kind(kind: u8, bytes: &[u8]) -> Result<(Record, &[u8]), Fault>
    ensures { Reads result (kind_in kind bytes.now) }
{
    match kind {
        6 => sold(bytes),
        7 => word(bytes).map(|(ticket, rest)| (Record::Undone(Ticket(ticket)), rest)),
        8 => given(bytes),
        9 => taken(bytes),
        10 => word(bytes).map(|(train, rest)| (Record::Opened(Train(train)), rest)),
        11 => word(bytes).map(|(train, rest)| (Record::Closed(Train(train)), rest)),
        12 => heard(bytes),
        20 => word(bytes).map(|(ask, rest)| (Record::Asked(Ask(ask)), rest)),
        21 => declined(bytes),
        _ => Err(Fault::Bad),
    }
}

// The record that the bytes begin with, and the bytes behind it.
pub fn read(bytes: &[u8]) -> Result<(Record, &[u8]), Fault>
    ensures value { Reads result (first bytes.now) }
    ensures shorter { IfOk result (λ r. length r.1.now < length bytes.now) }
{
    let (kind, rest) = byte(bytes)?;
    of_kind(kind, rest)
}
