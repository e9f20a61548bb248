// What other stations have told.
ghost use Rattle.std.specs.Prelude.{◌≡◌, ◌≤◌, ◌<◌, [], vec_len, vec_capacity, MatchResult};
ghost use Rattle.std.specs.List.{position};
ghost use Rattle.asking.specs.Told.{is_of, kept, told_by, without};
ghost use Rattle.giving.specs.declared.refusal.Refusal.TheVariants.{Memory};

use giving::ids::StationId;
use giving::refusal::Refusal;
use pieces::names::Train;
use pieces::tally::Tally;
use std::alloc::Global;

// So much of a train is held by a station, as it has told last.
#[derive(Clone, Copy, Drop)]
pub struct Note {
    pub train: Train,
    pub from: StationId,
    pub tally: Tally,
}

impl Note {
    fn is_of(&self, train: Train, from: StationId) -> bool
        ensures { result ≡ is_of train from self.now }
    {
        self.train == train && self.from == from
    }
}

// At most one note of each train and station.
#[derive(Drop)]
pub struct Told {
    notes: Vec<Note>,
}

impl Told {
    pub fn new(heap: Global) -> Told
        ensures { result.notes.items ≡ [] }
    {
        Told {
            notes: Vec::new(heap),
        }
    }

    // Where the note of a train and a station stands.
    fn find(&self, train: Train, from: StationId) -> Option<usize>
        ensures { result ≡ position (is_of train from) self.now.notes.items }
    {
        self.notes.iter().position(|note| note.is_of(train, from))
    }

    // What a station has told of a train.
    pub fn tally(&self, train: Train, from: StationId) -> Tally
        ensures { result ≡ told_by self.now.notes.items train from }
    {
        match self.find(train, from) {
            Some(place) => self.notes[place].tally,
            None => Tally { whole: 0, any: 0 },
        }
    }

    // Finds the memory for one note more.
    pub fn reserve(&mut self) -> Result<(), Refusal>
        ensures same { self.new.notes.items ≡ self.old.notes.items }
        ensures cases { MatchResult result (λ _. vec_len self.new.notes < vec_capacity self.new.notes) (λ e. (e ≡ Memory) × (vec_capacity self.old.notes ≤ vec_len self.old.notes)) }
    {
        self.notes.reserve(1)?;
        Ok(())
    }

    // Keeps a note, in the place of the one before of that train and station.
    pub fn keep(&mut self, note: Note)
        requires { vec_len self.old.notes < vec_capacity self.old.notes }
        ensures { self.new.notes.items ≡ kept self.old.notes.items note }
    {
        match self.find(note.train, note.from) {
            Some(place) => self.notes[place] = note,
            None => self.notes.push_reserved(note),
        }
    }

    // Forgets a train.
    pub fn forget(&mut self, train: Train)
        ensures { self.new.notes.items ≡ without train self.old.notes.items }
    {
        self.notes.retain(|note| note.train != train);
    }
}
