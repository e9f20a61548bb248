// A station's file: its records as bytes, one behind the other.
#![tactic(auto)]

ghost use Rattle.files.specs.Laws.{Apart, BadStays, CutAnywhere, InParts, Longest, OneReading, ReadsBack};

mod fields;
pub mod reading;
#[cfg(test)]
mod tests;
pub mod whole;
pub mod writing;

// What is written is read, whatever is behind it, and what is read was written.
pub fn reads_back_stands()
    ensures { ReadsBack }
{}

// No two records have the same bytes.
pub fn apart_stands()
    ensures { Apart }
{}

// A journal's bytes are those of no other journal, and are read as its records.
pub fn one_reading_stands()
    ensures { OneReading }
{}

// The records that are read from a file are the longest front of it that is records.
pub fn longest_stands()
    ensures { Longest }
{}

// Of a journal that was cut anywhere all whole records are read, and what is behind them is cut.
pub fn cut_anywhere_stands()
    ensures { CutAnywhere }
{}

// A file may be read in parts.
pub fn in_parts_stands()
    ensures { InParts }
{}

// No bytes behind it make a record of what is bad.
pub fn bad_stays_stand()
    ensures { BadStays }
{}
