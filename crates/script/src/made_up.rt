// Lines that hand a station bytes as if they came from another: `I < J HEX`.
ghost use Rattle.lines.specs.Hex.{hex_value};
ghost use Rattle.script.specs.Lines.{made_up_line, words_made_up};
ghost use Rattle.script.specs.Words.{words_left};
ghost use Rattle.std.specs.Option.{option_and_then};
ghost use Rattle.std.specs.Prelude.{◌≡◌, option_map, IfOk};

use crate::command::{line_words, number};
use lines::hex::unhex;
use std::alloc::{AllocError, Global};
use std::str::SplitAsciiWhitespace;

// Bytes that come to a station, as from another.
#[derive(Debug, Drop)]
pub struct MadeUp {
    pub to: u32,
    pub from: u32,
    pub bytes: Vec<u8>,
}

// Whom bytes are handed to, as from whom, and their digits, by the words of a line.
fn parts(mut words: SplitAsciiWhitespace<'_>) -> Option<(u32, u32, &str)>
    ensures { option_and_then (λ p. option_map (λ bs. (p.0, (p.1, bs))) (hex_value p.2.now)) result ≡ words_made_up (words_left words.entry) }
{
    let to = words.next()?;
    let sign = words.next()?;
    let from = words.next()?;
    let hex = words.next()?;
    let None = words.next() else {
        return None;
    };
    if sign != "<" {
        return None;
    }
    Some((number(to)?, number(from)?, hex))
}

// Reads a line; none where it hands no bytes to a station.
pub fn read_made_up(heap: Global, line: &str) -> Result<Option<MadeUp>, AllocError>
    ensures { IfOk result (λ o. option_map (λ m. (m.to, (m.from, m.bytes.items))) o ≡ made_up_line line.now) }
{
    let Some(words) = line_words(line) else {
        return Ok(None);
    };
    let Some((to, from, hex)) = parts(words) else {
        return Ok(None);
    };
    let bytes = unhex(heap, hex)?;
    Ok(bytes.map(|bytes| MadeUp { to, from, bytes }))
}
