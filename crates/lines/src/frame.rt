// The bytes of a message: none has more than thirteen.
ghost use Rattle.std.specs.Prelude.{◌≤◌};

pub mod makes;

#[derive(Clone, Copy, Debug, Drop)]
pub struct Frame {
    buffer: [u8; 13],
    len: usize,
    ghost fits: { len ≤ 13 },
}
