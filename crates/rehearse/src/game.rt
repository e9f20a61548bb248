// The world of a script, and the line of messages between its stations.
use crate::map::write_train;
use crate::shown::{EMPTY, Shown};
use asking::event::Reply;
use counter::answer::NO_COMMAND;
use counter::task::Task;
use giving::ids::StationId;
use ledger::input::Outcome;
use pieces::names::Train;
use rehearsal::queue::Queue;
use rehearsal::turn::Turn;
use rehearsal::world::World;
use script::command::{Command, Deed, Opening};
use script::made_up::{MadeUp, read_made_up};
use script::show::{Delivery, Handed, Lost, Said};
use script::values::{row, station_id};
use std::alloc::{AllocError, Global};
use std::collections::BTreeSet;

#[derive(Drop)]
pub struct Game {
    world: World,
    queue: Queue,
    // the trains that were ever opened
    trains: BTreeSet<Train>,
}

// What came of an opening, as an answer.
fn opened(turn: Turn<Outcome>) -> Turn<Reply> {
    match turn {
        Turn::Came(came) => Turn::Came(came.map(Reply::Came)),
        Turn::Fell => Turn::Fell,
    }
}

impl Game {
    pub fn new(heap: Global, stations: u8) -> Result<Game, AllocError> {
        Ok(Game {
            world: World::new(heap, stations)?,
            queue: Queue::new(heap),
            trains: BTreeSet::new(heap),
        })
    }

    // Does what a line says, and prints what comes of it.
    pub fn play(
        &mut self,
        heap: Global,
        command: Command,
        page: &mut String,
    ) -> Result<(), AllocError> {
        match command {
            Command::Station { who, deed } => self.station(heap, who, deed, page),
            Command::Pass => self.pass(heap, page),
            Command::PassMany { count } => self.pass_many(heap, count, page),
            Command::Twice => self.twice(heap, page),
            Command::Lose => self.lose(page),
            Command::Late => self.late(page),
            Command::Where => self.map(heap, page),
            Command::Cut { who } => self.cut(heap, who, page),
            Command::CutNext { who, bytes } => self.cut_next(who, bytes, page),
            Command::Stations { .. } => page.push_str(NO_COMMAND),
        }
    }

    // The map: for each train that a station has open, by number, where each stretch of each seat is.
    pub fn map(&self, heap: Global, page: &mut String) -> Result<(), AllocError> {
        for train in &self.trains {
            write_train(heap, &self.world, *train, page)?;
        }
        Ok(())
    }

    // What was said since a message is printed, and goes to the end of the queue.
    fn hear(&mut self, from: usize, page: &mut String) -> Result<(), AllocError> {
        let said = self.world.said();
        for message in said.iter().skip(from) {
            writeln!(page, "{}", Said(*message))?;
        }
        self.queue.add(from, said.len())
    }

    // What came of a station's step: what it said in it is printed, then its answer.
    fn came(
        &mut self,
        who: StationId,
        before: usize,
        turn: Turn<Reply>,
        page: &mut String,
    ) -> Result<(), AllocError> {
        self.hear(before, page)?;
        writeln!(page, "{who} {}", Shown(turn))
    }

    // A station does something.
    fn station(
        &mut self,
        heap: Global,
        number: u32,
        deed: Deed,
        page: &mut String,
    ) -> Result<(), AllocError> {
        let who = station_id(number);
        let before = self.world.said().len();
        let turn = match Task::of(deed, who) {
            Task::Lost(other) => return self.lost(heap, who, other, page),
            Task::Open(opening) => self.open(heap, who, opening)?,
            Task::Request(request) => self.world.ask(heap, who, request)?,
        };
        let Some(turn) = turn else {
            return page.push_str(NO_COMMAND);
        };
        self.came(who, before, turn, page)
    }

    // A train is opened, and all stations have its row.
    fn open(
        &mut self,
        heap: Global,
        who: StationId,
        opening: Opening,
    ) -> Result<Option<Turn<Reply>>, AllocError> {
        let Some(row) = row(opening, u16::from(self.world.stations())) else {
            return Ok(self.world.refuse(heap, who)?.map(opened));
        };
        let turn = self.world.open(heap, who, row)?;
        if self.world.row(row.train).is_some() {
            self.trains.insert(row.train)?;
        }
        Ok(turn.map(opened))
    }

    // A station lists the trains of another one, which lost its file.
    fn lost(
        &mut self,
        heap: Global,
        who: StationId,
        other: StationId,
        page: &mut String,
    ) -> Result<(), AllocError> {
        match self.world.lost(heap, who, other)? {
            None => page.push_str(NO_COMMAND),
            Some(Turn::Fell) => writeln!(page, "{who} cut"),
            Some(Turn::Came(Err(refusal))) => writeln!(page, "{who} no {refusal}"),
            Some(Turn::Came(Ok(trains))) => {
                let trains = &trains;
                writeln!(page, "{who} {}", Lost { other, trains })
            }
        }
    }

    // The power of a station is cut now, and comes back.
    fn cut(&mut self, heap: Global, number: u32, page: &mut String) -> Result<(), AllocError> {
        let who = station_id(number);
        if self.world.cut(heap, who)? {
            writeln!(page, "{who} cut")
        } else {
            page.push_str(NO_COMMAND)
        }
    }

    // The power of a station is cut when its next step has so many bytes on its file.
    fn cut_next(&mut self, number: u32, bytes: u32, page: &mut String) -> Result<(), AllocError> {
        if self.world.cut_next(station_id(number), bytes) {
            Ok(())
        } else {
            page.push_str(NO_COMMAND)
        }
    }

    // A message is delivered: it is printed, then what came of it.
    fn deliver(&mut self, heap: Global, at: usize, page: &mut String) -> Result<(), AllocError> {
        let before = self.world.said().len();
        let Some(delivered) = self.world.deliver(heap, at)? else {
            return page.push_str(NO_COMMAND);
        };
        let (message, turn) = delivered;
        writeln!(page, "{}", Delivery(message))?;
        self.came(message.to, before, turn, page)
    }

    // A line that is no command: it may hand a station bytes, which are printed, then what came of them.
    pub fn receive(
        &mut self,
        heap: Global,
        line: &str,
        page: &mut String,
    ) -> Result<(), AllocError> {
        let Some(MadeUp { to, from, bytes }) = read_made_up(heap, line)? else {
            return page.push_str(NO_COMMAND);
        };
        let who = station_id(to);
        let bytes = bytes.as_slice();
        let before = self.world.said().len();
        let Some(turn) = self.world.receive(heap, who, from, bytes)? else {
            return page.push_str(NO_COMMAND);
        };
        writeln!(page, "{}", Handed { to, from, bytes })?;
        self.came(who, before, turn, page)
    }

    // The first message in the queue is delivered, if there is one.
    fn deliver_first(
        &mut self,
        heap: Global,
        first: Option<usize>,
        page: &mut String,
    ) -> Result<(), AllocError> {
        match first {
            Some(at) => self.deliver(heap, at, page),
            None => page.push_str(EMPTY),
        }
    }

    // The first message is delivered.
    fn pass(&mut self, heap: Global, page: &mut String) -> Result<(), AllocError> {
        let first = self.queue.take_first();
        self.deliver_first(heap, first, page)
    }

    // So many messages are delivered, or all that there are.
    fn pass_many(&mut self, heap: Global, count: u32, page: &mut String) -> Result<(), AllocError> {
        for _ in 0..count {
            let Some(at) = self.queue.take_first() else {
                break;
            };
            self.deliver(heap, at, page)?;
        }
        Ok(())
    }

    // The first message is delivered, and stays first.
    fn twice(&mut self, heap: Global, page: &mut String) -> Result<(), AllocError> {
        let first = self.queue.first();
        self.deliver_first(heap, first, page)
    }

    // The first message is lost.
    fn lose(&mut self, page: &mut String) -> Result<(), AllocError> {
        match self.queue.take_first() {
            Some(_) => page.push_str("lost\n"),
            None => page.push_str(EMPTY),
        }
    }

    // The first message goes to the end of the queue.
    fn late(&mut self, page: &mut String) -> Result<(), AllocError> {
        if self.queue.delay() {
            page.push_str("late\n")
        } else {
            page.push_str(EMPTY)
        }
    }
}
