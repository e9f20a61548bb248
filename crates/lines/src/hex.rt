// Bytes in hexadecimal, and back.
ghost use Rattle.std.specs.Prelude.{◌≡◌, option_map, IfOk, Some};
ghost use Rattle.lines.specs.Hex.{digit_value, hex_text, hex_value, pair_value};

use std::alloc::{AllocError, Global};
use std::fmt;

#[cfg(test)]
mod tests;

// Bytes as they are printed: two digits for each, in small letters.
#[derive(Clone, Copy, Drop)]
pub struct Hex<'a>(pub &'a [u8]);

impl<'a> fmt::Display for Hex<'a> {
    ghost output = { λ h. Some (hex_text h.0.now) };

    fn fmt<W: fmt::Write>(&self, f: &mut fmt::Formatter<W>) -> fmt::Result {
        for &byte in self.0 {
            write!(f, "{byte:02x}")?;
        }
        Ok(())
    }
}

// What a character is as a digit, if it is one.
fn digit_value(c: u8) -> Option<u8>
    ensures { result ≡ digit_value c }
{
    match c {
        b'0'..=b'9' => Some(c - b'0'),
        b'a'..=b'f' => Some(c - b'a' + 10),
        b'A'..=b'F' => Some(c - b'A' + 10),
        _ => None,
    }
}

// The byte of two digits.
fn pair_value(high: u8, low: u8) -> Option<u8>
    ensures { result ≡ pair_value high low }
{
    Some(16 * digit_value(high)? + digit_value(low)?)
}

// The bytes that a text writes, in small letters or in great ones; none where it is no such text.
pub fn unhex(heap: Global, text: &str) -> Result<Option<Vec<u8>>, AllocError>
    ensures { IfOk result (λ o. option_map (λ v. v.items) o ≡ hex_value text.now) }
{
    let mut left = text.as_bytes();
    let mut found = Vec::new(heap);
    while let &[high, low, ref rest @ ..] = left {
        let Some(byte) = pair_value(high, low) else {
            return Ok(None);
        };
        found.push(byte)?;
        left = rest;
    }
    Ok(left.is_empty().then_some(found))
}
