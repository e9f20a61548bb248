// The lines of a script.
ghost use Rattle.script.specs.Lines.{deed_of, deed_line, words_deed, line_command_of, row_line, station_command_of, command_of};
ghost use Rattle.script.specs.Words.{line_words, words_left, number_of, numbers_of};
ghost use Rattle.std.specs.Prelude.{◌≡◌, option_map, IfOk};

use std::alloc::{AllocError, Global};
use std::str::SplitAsciiWhitespace;

// A train that is to be opened, as its numbers are typed.
#[derive(Clone, Copy, Debug, PartialEq, Eq, Drop)]
pub struct Opening {
    pub train: u32,
    pub seats: u32,
    pub stops: u32,
    pub first: u32,
}

// What is wanted of a train: so many people from a stop to a stop.
#[derive(Clone, Copy, Debug, PartialEq, Eq, Drop)]
pub struct Wish {
    pub train: u32,
    pub from: u32,
    pub to: u32,
    pub people: u32,
}

// What a station is told to do.
#[derive(Clone, Copy, Debug, PartialEq, Eq, Drop)]
pub enum Deed {
    Open(Opening),
    Close { train: u32 },
    Sell(Wish),
    Undo { ticket: u32 },
    // to another station
    Give { to: u32, wish: Wish },
    // for pieces
    Ask(Wish),
    // to list the trains of a station that lost its file
    Lost { other: u32 },
    Tick,
}

#[derive(Clone, Copy, Debug, PartialEq, Eq, Drop)]
pub enum Command {
    Stations { count: u32 },
    Station { who: u32, deed: Deed },
    Pass,
    PassMany { count: u32 },
    Lose,
    Twice,
    Late,
    // the power of a station is cut now
    Cut { who: u32 },
    // or when so many bytes of its next step are on its file
    CutNext { who: u32, bytes: u32 },
    Where,
}

// A line has at most so many bytes.
const LONGEST: usize = 4096;

// The words of a line; none where it is too long.
pub fn line_words(line: &str) -> Option<SplitAsciiWhitespace<'_>>
    ensures { option_map words_left result ≡ line_words line.now }
{
    if line.len() > LONGEST {
        return None;
    }
    Some(line.split_ascii_whitespace())
}

// The number that a word is, in decimal, below 2^32. A sign is no digit.
pub fn number(word: &str) -> Option<u32>
    ensures { result ≡ number_of word.now }
{
    if word.starts_with('+') {
        return None;
    }
    word.parse().ok()
}

// The numbers that words are; none where one of them is no number.
fn numbers(heap: Global, words: SplitAsciiWhitespace<'_>) -> Result<Option<Vec<u32>>, AllocError>
    ensures { IfOk result (λ o. option_map (λ v. v.items) o ≡ numbers_of (words_left words.entry)) }
{
    let mut found = Vec::new(heap);
    for word in words {
        let Some(n) = number(word) else {
            return Ok(None);
        };
        found.push(n)?;
    }
    Ok(Some(found))
}

// What a station is told, by a word and the numbers behind it.
fn station_deed(word: &str, args: &[u32]) -> Option<Deed>
    ensures { result ≡ deed_of word.now args.now }
{
    match (word, args) {
        ("tick", []) => Some(Deed::Tick),
        ("close", &[train]) => Some(Deed::Close { train }),
        ("undo", &[ticket]) => Some(Deed::Undo { ticket }),
        ("lost", &[other]) => Some(Deed::Lost { other }),
        ("sell", &[train, from, to, people]) => Some(Deed::Sell(Wish {
            train,
            from,
            to,
            people,
        })),
        ("open", &[train, seats, stops, first]) => Some(Deed::Open(Opening {
            train,
            seats,
            stops,
            first,
        })),
        ("ask", &[train, from, to, people]) => Some(Deed::Ask(Wish {
            train,
            from,
            to,
            people,
        })),
        ("give", &[station, train, from, to, people]) => Some(Deed::Give {
            to: station,
            wish: Wish {
                train,
                from,
                to,
                people,
            },
        }),
        _ => None,
    }
}

// A command on the lines between the stations, or on their power.
fn line_command(word: &str, args: &[u32]) -> Option<Command>
    ensures { result ≡ line_command_of word.now args.now }
{
    match (word, args) {
        ("pass", []) => Some(Command::Pass),
        ("pass", &[count]) => Some(Command::PassMany { count }),
        ("lose", []) => Some(Command::Lose),
        ("twice", []) => Some(Command::Twice),
        ("late", []) => Some(Command::Late),
        ("where", []) => Some(Command::Where),
        ("stations", &[count]) => Some(Command::Stations { count }),
        ("cut", &[who]) => Some(Command::Cut { who }),
        ("cut", &[who, bytes]) => Some(Command::CutNext { who, bytes }),
        _ => None,
    }
}

// What words ask of a station.
fn words_deed(heap: Global, mut words: SplitAsciiWhitespace<'_>) -> Result<Option<Deed>, AllocError>
    ensures { IfOk result (λ r. r ≡ words_deed (words_left words.entry)) }
{
    let Some(word) = words.next() else {
        return Ok(None);
    };
    let Some(args) = numbers(heap, words)? else {
        return Ok(None);
    };
    Ok(station_deed(word, &args))
}

// A command to a station, by the words behind its number.
fn station_command(
    heap: Global,
    who: u32,
    words: SplitAsciiWhitespace<'_>,
) -> Result<Option<Command>, AllocError>
    ensures { IfOk result (λ r. r ≡ station_command_of who (words_left words.entry)) }
{
    let deed = words_deed(heap, words)?;
    Ok(deed.map(|deed| Command::Station { who, deed }))
}

// Reads a line that is typed at a station; none where it asks nothing.
pub fn read_deed(heap: Global, line: &str) -> Result<Option<Deed>, AllocError>
    ensures { IfOk result (λ r. r ≡ deed_line line.now) }
{
    let Some(words) = line_words(line) else {
        return Ok(None);
    };
    words_deed(heap, words)
}

// Reads a line of the timetable; none where it is no row.
pub fn read_row(heap: Global, line: &str) -> Result<Option<Opening>, AllocError>
    ensures { IfOk result (λ r. r ≡ row_line line.now) }
{
    let Some(words) = line_words(line) else {
        return Ok(None);
    };
    let found = numbers(heap, words)?;
    let Some(&[train, seats, stops, first]) = found.as_deref() else {
        return Ok(None);
    };
    Ok(Some(Opening {
        train,
        seats,
        stops,
        first,
    }))
}

// Reads a line; none where it is no command.
pub fn read(heap: Global, line: &str) -> Result<Option<Command>, AllocError>
    ensures { IfOk result (λ r. r ≡ command_of line.now) }
{
    let Some(mut words) = line_words(line) else {
        return Ok(None);
    };
    let Some(first) = words.next() else {
        return Ok(None);
    };
    if let Some(who) = number(first) {
        return station_command(heap, who, words);
    }
    let Some(args) = numbers(heap, words)? else {
        return Ok(None);
    };
    Ok(line_command(first, &args))
}
