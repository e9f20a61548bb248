// The pieces of a ticket, read from the front of some bytes: with the bytes behind them.
ghost use Rattle.std.specs.Prelude.{◌≡◌, ◌≤◌, Ok, Err, MatchResult, IfOk, length};
ghost use Rattle.files.specs.Reading.{party as party_in, pieces as pieces_in, seat_on as seat_in};

use choosing::party::Party;
use lines::fault::Fault;
use lines::fields::{byte, front, piece};
use pieces::names::{Seat, Train};
use pieces::piece::Piece;
use pieces::trip::Trip;

// The pieces of a ticket, as the part of the bytes that they stand in.
pub fn pieces(bytes: &[u8]) -> Result<(&[u8], &[u8]), Fault>
    ensures value { MatchResult result (λ r. pieces_in bytes.now ≡ Ok (r.0.now, r.1.now)) (λ f. pieces_in bytes.now ≡ Err f) }
    ensures few { IfOk result (λ r. length r.0.now ≤ 64) }
{
    let (people, rest) = byte(bytes)?;
    if people < 1 || 8 < people {
        return Err(Fault::Bad);
    }
    front(8 * usize::from(people), rest)
}

// The seat of a piece of this train and this trip.
fn seat_on(train: Train, trip: Trip, piece: Piece) -> Result<Seat, Fault>
    ensures { result ≡ seat_in train trip piece }
{
    if piece.train == train && piece.trip == trip {
        Ok(piece.seat)
    } else {
        Err(Fault::Bad)
    }
}

// The party of such a part.
pub fn party(pieces: &[u8]) -> Result<Party, Fault>
    requires { length pieces.now ≤ 64 }
    ensures { MatchResult result (λ p. party_in pieces.now ≡ Ok p) (λ f. party_in pieces.now ≡ Err f) }
{
    let (Piece { train, trip, .. }, _) = piece(pieces)?;
    let mut party = Party::new(train, trip);
    let mut rest = pieces;
    for _ in 0..pieces.len() / 8 {
        let (next, behind) = piece(rest)?;
        party.push(seat_on(train, trip, next)?);
        rest = behind;
    }
    Ok(party)
}
