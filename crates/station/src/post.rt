// A station with its files: each step is on the file, synced, before anything of it is said or answered.
use crate::part::Part;
use crate::rows::{self, Rows};
use crate::start::Start;
use anyhow::anyhow;
use asking::event::Reply;
use counter::answer::{Answer, NO_COMMAND};
use counter::task::Task;
use giving::ids::StationId;
use giving::message::Message;
use giving::refusal::Refusal;
use ledger::lost::lost_trains;
use lines::frame::Frame;
use lines::hex::Hex;
use recovery::machine::Machine;
use recovery::replay::replay;
use script::command::{Opening, read_deed};
use script::show::Lost;
use script::values::row;
use std::alloc::{AllocError, Global};
use std::fs::{File, OpenOptions};
use std::io::{ErrorKind, Write};
use std::str::from_utf8;
use timetable::timetable::Timetable;

const FILE: &str = "file";

#[derive(Drop)]
pub struct Post {
    heap: Global,
    machine: Machine,
    trains: Timetable,
    table: File,
    file: File,
    // the records of a step as bytes, and what is said of it, until they are on the file
    bytes: Vec<u8>,
    out: Vec<Message>,
}

// What there was on a file that was opened.
#[derive(Clone, Copy, Drop)]
pub struct Found {
    pub records: u64,
    // so many bytes behind the records were cut back
    pub cut: u64,
}

// The file of a station: made at its very first start, and there at every other.
fn open_file(rt: &HostRuntime, is_first: bool) -> anyhow::Result<File> {
    let mut options = OpenOptions::new();
    options.read(true).append(true).create_new(is_first);
    match options.open(rt, FILE) {
        Ok(file) => Ok(file),
        Err(error) => match error.kind() {
            ErrorKind::AlreadyExists => Err(anyhow!(
                "there is a file `file`: this station was started before; leave `new` out"
            )),
            ErrorKind::NotFound => Err(anyhow!(
                "there is no file `file`: a station that lost it does not come up again"
            )),
            _ => Err(error.into()),
        },
    }
}

// Reads the file in parts and applies its records; what is behind the last whole one is cut back. None where there is a bad record.
fn come_up(
    heap: Global,
    file: &mut File,
    machine: &mut Machine,
    trains: &Timetable,
) -> anyhow::Result<Option<Found>> {
    let mut part = Part::new(heap)?;
    let mut found = Found { records: 0, cut: 0 };
    let mut whole: u64 = 0;
    for _ in 0..u64::MAX {
        if !part.read(file)? {
            break;
        }
        match replay(&mut machine.station, trains, part.filled()) {
            Ok(done) => {
                part.let_go(done.bytes);
                found.records = found.records.wrapping_add(done.records as u64);
                whole = whole.wrapping_add(done.bytes as u64);
            }
            Err(Refusal::Malformed) => return Ok(None),
            Err(_) => return Err(anyhow!("there is no memory for what the file says")),
        }
    }
    found.cut = part.len() as u64;
    if found.cut > 0 {
        file.set_len(whole)?;
        file.sync_all()?;
    }
    Ok(Some(found))
}

impl Post {
    // Opens the files, and makes of the records what they make. None where there is a bad record: then nothing was changed.
    pub fn open(rt: &HostRuntime, start: Start) -> anyhow::Result<Option<(Post, Found)>> {
        let heap = rt.alloc();
        let Rows { trains, bytes } = rows::read(rt, start)?;
        let mut file = open_file(rt, start.is_first)?;
        let mut machine = Machine::new(heap, start.me, start.stations)?;
        let Some(found) = come_up(heap, &mut file, &mut machine, &trains)? else {
            return Ok(None);
        };
        let post = Post {
            heap,
            machine,
            trains,
            table: rows::open(rt, bytes)?,
            file,
            bytes: Vec::new(heap),
            out: Vec::new(heap),
        };
        Ok(Some((post, found)))
    }

    // What is written is on the file, synced.
    fn sync(&mut self) -> anyhow::Result<()> {
        if !self.bytes.is_empty() {
            self.file.write_all(&self.bytes)?;
            self.file.sync_all()?;
            self.bytes.clear();
        }
        Ok(())
    }

    // A train is opened; a new row is on the file `table`, synced, before the opening is written.
    fn open_train(&mut self, opening: Opening) -> anyhow::Result<Result<Reply, Refusal>> {
        let stations = self.machine.station.stations() as u16;
        let Some(row) = row(opening, stations) else {
            return Ok(Err(Refusal::Malformed));
        };
        let is_new = self.trains.row(row.train).is_none();
        let came = self.machine.open(&mut self.trains, &mut self.bytes, row);
        if is_new && came.is_ok() {
            rows::add(&mut self.table, row)?;
        }
        Ok(came.map(Reply::Came))
    }

    // The trains of a station that lost its file.
    fn lost(&self, other: StationId, answer: &mut String) -> Result<(), AllocError> {
        match lost_trains(self.heap, &self.machine.station, &self.trains, other) {
            Ok(trains) => {
                let trains = &trains;
                writeln!(answer, "{}", Lost { other, trains })
            }
            Err(refusal) => writeln!(answer, "no {refusal}"),
        }
    }

    // Does what is asked, and says what is answered.
    fn perform(&mut self, task: Task, answer: &mut String) -> anyhow::Result<()> {
        let response = match task {
            Task::Lost(other) => return Ok(self.lost(other, answer)?),
            Task::Open(opening) => self.open_train(opening)?,
            Task::Request(request) => {
                self.machine.handle(&self.trains, &mut self.bytes, &mut self.out, request.into())
            }
        };
        writeln!(answer, "{}", Answer(response))?;
        Ok(())
    }

    // Does what a line asks, and prints what is said and answered, once all of it is on the file.
    pub fn serve(&mut self, line: &[u8]) -> anyhow::Result<String> {
        let mut page = String::new(self.heap);
        let line = line.trim_ascii();
        if line.is_empty() || line.starts_with(b"#") {
            return Ok(page);
        }
        // what is no text asks nothing, as an empty line does
        let text = from_utf8(line).unwrap_or_default();
        let Some(deed) = read_deed(self.heap, text)? else {
            page.push_str(NO_COMMAND)?;
            return Ok(page);
        };
        let mut answer = String::new(self.heap);
        let task = Task::of(deed, self.machine.station.me());
        self.perform(task, &mut answer)?;
        self.sync()?;
        for message in &self.out {
            let frame = Frame::of(message.body);
            writeln!(page, "out {} {}", message.to, Hex(frame.bytes()))?;
        }
        self.out.clear();
        page.push_str(&answer)?;
        Ok(page)
    }
}
