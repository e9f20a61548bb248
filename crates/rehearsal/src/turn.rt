// What comes of a station's step: an answer or a refusal, or the station fell in the midst of it.
use giving::refusal::Refusal;

#[derive(Clone, Copy, Drop)]
pub enum Turn<T> {
    Came(Result<T, Refusal>),
    Fell,
}
