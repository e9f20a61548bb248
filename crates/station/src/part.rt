// A part of a file that was read, of which some may be left to be read together with what comes next.
ghost use Rattle.std.specs.Prelude.{◌≤◌, vec_len};

pub mod moves;

// The first `filled` bytes are what was read.
#[derive(Drop)]
pub struct Part {
    bytes: Vec<u8>,
    filled: usize,
    ghost within: { filled ≤ vec_len bytes },
}
