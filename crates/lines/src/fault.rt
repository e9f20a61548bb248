// Why no record is read from the front of some bytes.

#[derive(Clone, Copy, Debug, PartialEq, Eq, Drop)]
pub enum Fault {
    // there are fewer bytes than the record has, or none at all
    Cut,
    // no record begins so
    Bad,
}
