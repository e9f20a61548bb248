// What messages and records are made of, read from the front of some bytes: each with the bytes behind it.
ghost use Rattle.std.specs.Prelude.{◌≡◌, Ok, Err, MatchResult};
ghost use Rattle.lines.specs.Fields.{Reads, byte as byte_in, front as front_in, half as half_in, piece as piece_in, word as word_in};

use crate::fault::Fault;
use pieces::names::{Seat, Stop, Train};
use pieces::piece::Piece;
use pieces::trip::Trip;

pub fn byte(bytes: &[u8]) -> Result<(u8, &[u8]), Fault>
    ensures { Reads result (byte_in bytes.now) }
{
    let [byte, rest @ ..] = bytes else {
        return Err(Fault::Cut);
    };
    Ok((*byte, rest))
}

pub fn front(count: usize, bytes: &[u8]) -> Result<(&[u8], &[u8]), Fault>
    ensures { MatchResult result (λ r. front_in count bytes.now ≡ Ok (r.0.now, r.1.now)) (λ f. front_in count bytes.now ≡ Err f) }
{
    if bytes.len() < count {
        return Err(Fault::Cut);
    }
    Ok(bytes.split_at(count))
}

// A number of two bytes.
pub fn half(bytes: &[u8]) -> Result<(u16, &[u8]), Fault>
    ensures { Reads result (half_in bytes.now) }
{
    let (number, rest) = front(2, bytes)?;
    Ok((u16::from_be_bytes([number[0], number[1]]), rest))
}

// A number of four bytes.
pub fn word(bytes: &[u8]) -> Result<(u32, &[u8]), Fault>
    ensures { Reads result (word_in bytes.now) }
{
    let (number, rest) = front(4, bytes)?;
    let number = u32::from_be_bytes([number[0], number[1], number[2], number[3]]);
    Ok((number, rest))
}

pub fn piece(bytes: &[u8]) -> Result<(Piece, &[u8]), Fault>
    ensures { Reads result (piece_in bytes.now) }
{
    let (train, rest) = word(bytes)?;
    let (seat, rest) = half(rest)?;
    let (from, rest) = byte(rest)?;
    let (to, rest) = byte(rest)?;
    let trip = Trip::new(Stop(from), Stop(to)).ok_or(Fault::Bad)?;
    Ok((Piece::new(Train(train), Seat(seat), trip), rest))
}
