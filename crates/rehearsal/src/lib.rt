// Stations and the lines between them in one process, whose power may be cut. As long as nothing made up is taken it is a world that is reached by moves.
#![tactic(auto)]

pub mod coming;
pub mod post;
pub mod queue;
pub mod turn;
pub mod world;
