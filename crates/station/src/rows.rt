// The file `table`: a line `T S L F` for each train, the same at every station. What is behind its last line break is no line.
use crate::start::Start;
use anyhow::anyhow;
use script::command::read_row;
use script::values::row;
use std::alloc::Global;
use std::fs::{self, File, OpenOptions};
use std::io::{ErrorKind, Write};
use std::str::from_utf8;
use timetable::row::Row;
use timetable::timetable::Timetable;

const TABLE: &str = "table";

// The timetable that was read, and how many bytes its lines have.
#[derive(Drop)]
pub struct Rows {
    pub trains: Timetable,
    pub bytes: usize,
}

// The bytes of the file; none where it is missing.
fn read_bytes(rt: &HostRuntime) -> anyhow::Result<Vec<u8>> {
    match fs::read(rt, TABLE) {
        Ok(bytes) => Ok(bytes),
        Err(error) => match error.kind() {
            ErrorKind::NotFound => Ok(Vec::new(rt.alloc())),
            _ => Err(error.into()),
        },
    }
}

// Adds the row that a line is.
fn add_line(heap: Global, trains: &mut Timetable, start: Start, line: &str) -> anyhow::Result<()> {
    let found = match read_row(heap, line)? {
        Some(opening) => row(opening, start.stations),
        None => None,
    };
    let Some(found) = found else {
        return Err(anyhow!("the file `table` has a line that is no train: {line}"));
    };
    match trains.add(found) {
        Ok(()) => Ok(()),
        Err(_) => Err(anyhow!("the file `table` has another row of a train: {line}")),
    }
}

// Reads the timetable for so many stations.
pub fn read(rt: &HostRuntime, start: Start) -> anyhow::Result<Rows> {
    let heap = rt.alloc();
    let mut trains = Timetable::new(heap);
    let bytes = read_bytes(rt)?;
    let end = bytes
        .iter()
        .rposition(|byte| *byte == b'\n')
        .map_or(0, |at| at + 1);
    let Ok(text) = from_utf8(&bytes[..end]) else {
        return Err(anyhow!("the file `table` is no text"));
    };
    for line in text.lines() {
        add_line(heap, &mut trains, start, line)?;
    }
    Ok(Rows { trains, bytes: end })
}

// Opens the file for further rows, behind so many bytes; it is made where it is missing.
pub fn open(rt: &HostRuntime, bytes: usize) -> anyhow::Result<File> {
    let file = OpenOptions::new()
        .append(true)
        .create(true)
        .open(rt, TABLE)?;
    file.set_len(bytes as u64)?;
    Ok(file)
}

// Adds a row, synced.
pub fn add(file: &mut File, row: Row) -> anyhow::Result<()> {
    let Row {
        train,
        seats,
        stops,
        first,
        ..
    } = row;
    writeln!(file, "{train} {seats} {stops} {first}")?;
    file.sync_all()?;
    Ok(())
}
