// A script, line by line.
use crate::game::Game;
use counter::answer::NO_COMMAND;
use script::command::{Command, read};
use std::alloc::{AllocError, Global};
use std::str::from_utf8;

#[derive(Drop)]
pub struct Player {
    // begun by the line `stations N`
    game: Option<Game>,
}

impl Player {
    pub fn new() -> Player {
        Player { game: None }
    }

    // Plays a line of the script, and says what is printed of it.
    pub fn play(&mut self, heap: Global, line: &[u8]) -> Result<String, AllocError> {
        let mut page = String::new(heap);
        let line = line.trim_ascii();
        if line.is_empty() || line.starts_with(b"#") {
            return Ok(page);
        }
        // what is no text is no command, as an empty line is none
        let text = from_utf8(line).unwrap_or_default();
        match (read(heap, text)?, &mut self.game) {
            (Some(command), Some(game)) => game.play(heap, command, &mut page)?,
            (None, Some(game)) => game.receive(heap, text, &mut page)?,
            (Some(Command::Stations { count: n @ 1..=8 }), None) => {
                self.game = Some(Game::new(heap, n as u8)?);
            }
            _ => page.push_str(NO_COMMAND)?,
        }
        Ok(page)
    }

    // The map; nothing where no game has begun.
    pub fn map(&self, heap: Global) -> Result<String, AllocError> {
        let mut page = String::new(heap);
        if let Some(game) = &self.game {
            game.map(heap, &mut page)?;
        }
        Ok(page)
    }
}
