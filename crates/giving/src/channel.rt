// What one station keeps of its line with another.
// The numbers 1 to `given` are used; the other station has acknowledged those up to `heard`, and the pieces behind them wait,
// in their order. Of the other station's numbers those up to `taken` are taken, of its asks those up to `answered` are answered.
ghost use Rattle.std.specs.Prelude.{◌≡◌, ◌+◌, ◌≤◌};
ghost use Rattle.std.specs.VecDeque.{deque_len, deque_capacity};

use crate::ids::{Ask, Number};
use pieces::piece::Piece;
use std::collections::VecDeque;

pub mod moves;

#[derive(Drop)]
pub struct Channel {
    given: Number,
    heard: Number,
    taken: Number,
    answered: Ask,
    waiting: VecDeque<Piece>,
    ghost numbers: { given.0 ≤ 4294967295 },
    ghost counted: { heard.0 + deque_len waiting ≡ given.0 },
    ghost room: { 4096 ≤ deque_capacity waiting },
}
