// The lines of a script, and the text of messages.
#![tactic(auto)]

pub mod command;
pub mod made_up;
pub mod show;
pub mod values;
