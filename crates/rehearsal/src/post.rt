// A station at work with its file in memory, and when its power is to be cut: when its next step has so many bytes on the file.
use recovery::machine::Machine;

pub mod calls;

#[derive(Drop)]
pub struct Post {
    pub machine: Machine,
    pub file: Vec<u8>,
    pub cut: Option<u32>,
}
