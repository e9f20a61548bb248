// What holds of every word, whichever function made it.
ghost use Rattle.pieces.specs.Laws.{PutsBack, Runs, Something};

// What was taken out and is put back leaves the word as it was.
pub fn put_back_stands()
    ensures { PutsBack }
{}

// Held stretches lie in runs, and runs that meet are one.
pub fn joined_stands()
    ensures { Runs }
{}

// A word is something exactly if a stretch of it is held.
pub fn something_stands()
    ensures { Something }
{}
