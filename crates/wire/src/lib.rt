// Stations with wires between them, on which bytes come and go.
#![tactic(auto)]

ghost use Rattle.wire.specs.Laws.{IsReached, OverBytes, SaidIsRead, SaysSound};

// What a station says has bytes.
pub fn says_sound_stands()
    ensures { SaysSound }
{}

// What comes to a station was said to it.
pub fn said_is_read_stands()
    ensures { SaidIsRead }
{}

// Bytes on wires lead to no more than what was said does.
pub fn is_reached_stands()
    ensures { IsReached }
{}

// All that is promised holds over bytes.
pub fn over_bytes_stands()
    ensures { OverBytes }
{}
