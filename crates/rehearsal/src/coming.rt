// What comes to a station.
use counter::request::Request;

#[derive(Clone, Copy, Drop)]
pub enum Coming<'a> {
    // at its counter, or from its clock
    Request(Request),
    // from another station, whoever it is said to be
    Bytes { from: u32, bytes: &'a [u8] },
}
