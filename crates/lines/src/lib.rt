// Messages between stations as bytes, and bytes in hexadecimal.
#![tactic(auto)]

ghost use Rattle.lines.specs.Laws.{Apart, HexBack, ReadsBack, Refuses};

pub mod fault;
pub mod fields;
pub mod frame;
pub mod hex;
pub mod reading;
#[cfg(test)]
mod tests;
pub mod writing;

// What is written is read, and what is read was written.
pub fn reads_back_stands()
    ensures { ReadsBack }
{}

// No two messages have the same bytes.
pub fn apart_stands()
    ensures { Apart }
{}

// What is cut short, too long or of another kind is no message, and nothing is refused that is one.
pub fn refuses_stands()
    ensures { Refuses }
{}

// Hexadecimal text that is written is read, in small letters or in great ones.
pub fn hex_back_stands()
    ensures { HexBack }
{}
