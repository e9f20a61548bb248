// Stations, the timetable that all have, and all that they ever said to each other, the last at the end.
ghost use Rattle.rehearsal.specs.Lives.{Lives};
ghost use Rattle.std.specs.Prelude.{◌≤◌, vec_len};
ghost use Rattle.timetable.specs.Tables.{table};

use crate::post::Post;
use giving::message::Message;
use timetable::timetable::Timetable;

pub mod falls;
pub mod made_up;
pub mod moves;
pub mod places;
pub mod reads;

#[derive(Drop)]
pub struct World {
    trains: Timetable,
    posts: Vec<Post>,
    said: Vec<Message>,
    // what nobody said was taken here or passed over, or may have been, where the power was cut
    made_up: bool,
    ghost lives: { ∥ Lives (table trains) posts.items said.items made_up ∥₁ },
    ghost few: { vec_len posts ≤ 255 },
}
