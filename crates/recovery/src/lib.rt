// A station at work that writes bytes, and comes up from them.
#![tactic(auto)]

ghost use Rattle.recovery.specs.Alone.{Alone};
ghost use Rattle.recovery.specs.Laws.{ComesUp, InParts};

pub mod machine;
pub mod replay;

// After a cut at any place a station is as after the last record that is whole on the file.
pub fn comes_up_stands()
    ensures { ComesUp }
{}

// A file may be read in parts.
pub fn parts_stand()
    ensures { InParts }
{}

// Whatever comes over the lines of a station, made up too: it goes on, what it turns away changes nothing, and it never sells or gives what it does
// not hold.
pub fn alone_stands()
    ensures { Alone }
{}
