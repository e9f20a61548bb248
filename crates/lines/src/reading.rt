// A message read from bytes.
ghost use Rattle.std.specs.Prelude.{◌≡◌};
ghost use Rattle.lines.specs.Fields.{Reads};
ghost use Rattle.lines.specs.Reading.{answered as answered_in, asked as asked_in, given as given_in, message, of_kind as kind_in, told as told_in};

use crate::fault::Fault;
use crate::fields::{byte, half, piece, word};
use giving::ids::{Ask, Number};
use giving::message::Body;
use pieces::demand::Demand;
use pieces::names::{Stop, Train};
use pieces::tally::Tally;

fn given(bytes: &[u8]) -> Result<(Body, &[u8]), Fault>
    ensures { Reads result (given_in bytes.now) }
{
    let (number, rest) = word(bytes)?;
    let (piece, rest) = piece(rest)?;
    Ok((Body::Given(Number(number), piece), rest))
}

fn asked(bytes: &[u8]) -> Result<(Body, &[u8]), Fault>
    ensures { Reads result (asked_in bytes.now) }
{
    let (train, rest) = word(bytes)?;
    let (from, rest) = byte(rest)?;
    let (to, rest) = byte(rest)?;
    let (people, rest) = byte(rest)?;
    let (ask, rest) = word(rest)?;
    let demand = Demand {
        train: Train(train),
        from: Stop(from),
        to: Stop(to),
        people,
    };
    Ok((Body::Asked(Ask(ask), demand), rest))
}

fn answered(bytes: &[u8]) -> Result<(Body, &[u8]), Fault>
    ensures { Reads result (answered_in bytes.now) }
{
    let (ask, rest) = word(bytes)?;
    let (pieces, rest) = byte(rest)?;
    Ok((Body::Answered(Ask(ask), pieces), rest))
}

fn told(bytes: &[u8]) -> Result<(Body, &[u8]), Fault>
    ensures { Reads result (told_in bytes.now) }
{
    let (train, rest) = word(bytes)?;
    let (whole, rest) = half(rest)?;
    let (any, rest) = half(rest)?;
    Ok((Body::Told(Train(train), Tally { whole, any }), rest))
}

// What a message of a kind says.
fn of_kind(kind: u8, bytes: &[u8]) -> Result<(Body, &[u8]), Fault>
    ensures { Reads result (kind_in kind bytes.now) }
{
    match kind {
        1 => given(bytes),
        2 => word(bytes).map(|(number, rest)| (Body::Taken(Number(number)), rest)),
        3 => asked(bytes),
        4 => answered(bytes),
        5 => told(bytes),
        _ => Err(Fault::Bad),
    }
}

// The message that some bytes are, all of them.
pub fn read(bytes: &[u8]) -> Result<Body, Fault>
    ensures { result ≡ message bytes.now }
{
    let (kind, rest) = byte(bytes)?;
    let (body, []) = of_kind(kind, rest)? else {
        return Err(Fault::Bad);
    };
    Ok(body)
}
