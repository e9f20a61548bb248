// The stretches of one seat, as the bits of a word.
ghost use Rattle.std.specs.Prelude.{◌≡◌, ℕ, ◌+◌, ◌-◌, ◌<◌, not, ◌&&◌, ◌||◌, Decides, MatchOption};
ghost use Rattle.pieces.specs.Stretches.{holds, within, Clear, Covers, covered, span, less, plus, before, behind, spare, FirstOf, EndOf, Beside};

use crate::names::Stop;
use crate::trip::Trip;

// Whether the stretch from a stop to the next is held.
pub fn held(word: u64, stop: Stop) -> bool
    ensures { result ≡ holds word stop.0 }
{
    word.unbounded_shr(u32::from(stop.0)) & 1 == 1
}

// The word with just the stretches of the trip.
pub fn mask(trip: Trip) -> u64
    ensures value { result ≡ span trip.from.0 trip.to.0 }
    ensures each { (k : ℕ) → holds result k ≡ within trip.from.0 trip.to.0 k }
{
    (1 << trip.to.0) - (1 << trip.from.0)
}

// Whether each stretch of the trip is held.
pub fn covers(word: u64, trip: Trip) -> bool
    ensures value { result ≡ covered word trip.from.0 trip.to.0 }
    ensures means { Decides result (Covers word trip.from.0 trip.to.0) }
{
    let asked = mask(trip);
    word & asked == asked
}

// Whether no stretch of the trip is held.
pub fn clear(word: u64, trip: Trip) -> bool
    ensures { Decides result (Clear word trip.from.0 trip.to.0) }
{
    word & mask(trip) == 0
}

// The word without the stretches of the trip.
pub fn taken_out(word: u64, trip: Trip) -> u64
    ensures value { result ≡ less word trip.from.0 trip.to.0 }
    ensures each { (k : ℕ) → holds result k ≡ (holds word k && not (within trip.from.0 trip.to.0 k)) }
{
    word & !mask(trip)
}

// The word with the stretches of the trip.
pub fn put_back(word: u64, trip: Trip) -> u64
    ensures value { result ≡ plus word trip.from.0 trip.to.0 }
    ensures each { (k : ℕ) → holds result k ≡ (holds word k || within trip.from.0 trip.to.0 k) }
{
    word | mask(trip)
}

// The stop where the run of held stretches begins that ends at stop `from`.
fn run_start(word: u64, from: Stop) -> u8
    requires { from.0 < 30 }
    ensures value { result + before word from.0 ≡ from.0 }
    ensures run { FirstOf word from.0 result }
{
    // The stretch before the stop becomes the highest bit.
    let run = (word << (63 - from.0) << 1).leading_ones() as u8;
    from.0 - run
}

// The stop where the run of held stretches ends that begins at stop `to`: 29 at most.
fn run_end(word: u64, to: Stop) -> u8
    requires { to.0 < 30 }
    ensures value { result ≡ to.0 + behind word to.0 (29 - to.0) }
    ensures run { EndOf word to.0 result }
{
    // Stop 29 counts as a gap.
    let gaps = !(word >> to.0) | 1 << (29 - to.0);
    let run = gaps.trailing_zeros() as u8;
    to.0 + run
}

// The longest run of held stretches around the trip.
pub fn run_around(word: u64, trip: Trip) -> Option<Trip>
    ensures { MatchOption result (Covers word trip.from.0 trip.to.0 → ⊥)
        (λ t. Covers word trip.from.0 trip.to.0 × FirstOf word trip.from.0 t.from.0 × EndOf word trip.to.0 t.to.0) }
{
    if !covers(word, trip) {
        return None;
    }
    Some(Trip {
        from: Stop(run_start(word, trip.from)),
        to: Stop(run_end(word, trip.to)),
    })
}

// How many stretches would be left beside the trip, in the run of held stretches around it.
pub fn leftover(word: u64, trip: Trip) -> Option<u8>
    ensures { MatchOption result (Covers word trip.from.0 trip.to.0 → ⊥)
        (λ n. Covers word trip.from.0 trip.to.0 × (n ≡ spare word trip.from.0 trip.to.0) × Beside word trip.from.0 trip.to.0 n) }
{
    let run = run_around(word, trip)?;
    Some(trip.from.0 - run.from.0 + (run.to.0 - trip.to.0))
}
