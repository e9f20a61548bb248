// What is printed of a line of the script.
ghost use Rattle.rehearse.specs.Shown.{turn_text};
ghost use Rattle.std.specs.Prelude.{Some};

use asking::event::Reply;
use counter::answer::Answer;
use rehearsal::turn::Turn;
use std::fmt;

// The answer where the queue has no message.
pub const EMPTY: &str = "empty\n";

// What came of a step of a station: its answer, or that its power was cut.
#[derive(Clone, Copy, Drop)]
pub struct Shown(pub Turn<Reply>);

impl fmt::Display for Shown {
    ghost output = { λ s. Some (turn_text s.0) };

    fn fmt<W: fmt::Write>(&self, f: &mut fmt::Formatter<W>) -> fmt::Result {
        match self.0 {
            Turn::Came(response) => write!(f, "{}", Answer(response)),
            Turn::Fell => f.write_str("cut"),
        }
    }
}
