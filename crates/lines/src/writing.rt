// Pieces as bytes, and the message by which one is given.
ghost use Rattle.std.specs.Prelude.{◌≡◌};
ghost use Rattle.giving.specs.declared.message.Body.TheVariants.{Given};
ghost use Rattle.lines.specs.Bytes.{body_bytes, piece_bytes as bytes_of_piece};

use giving::ids::Number;
use pieces::piece::Piece;

pub fn piece_bytes(piece: Piece) -> [u8; 8]
    ensures { result ≡ bytes_of_piece piece }
{
    let [a, b, c, d] = piece.train.0.to_be_bytes();
    let [e, f] = piece.seat.0.to_be_bytes();
    [a, b, c, d, e, f, piece.trip.from.0, piece.trip.to.0]
}

// The message by which a piece is given.
pub fn given(number: Number, piece: Piece) -> [u8; 13]
    ensures { result ≡ body_bytes (Given number piece) }
{
    let mut message = [1; 13];
    message[1..5].copy_from_slice(&number.0.to_be_bytes());
    message[5..13].copy_from_slice(&piece_bytes(piece));
    message
}
