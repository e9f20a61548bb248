// What bytes are to the station that they come to.
ghost use Rattle.std.specs.Prelude.{◌≡◌};
ghost use Rattle.receiving.specs.Incoming.{incoming};

use asking::event::Event;
use giving::ids::StationId;
use giving::message::Message;
use lines::reading::read;

// What some bytes are to station `me`, that came from a station: a message, or garbled. Any number may be said to be the sender's.
pub fn incoming(me: StationId, from: u32, bytes: &[u8]) -> Event
    ensures { result ≡ incoming me.0 from bytes.now }
{
    let Ok(body) = read(bytes) else {
        return Event::Garbled;
    };
    let message = Message {
        from: StationId::other(from, me),
        to: me,
        body,
    };
    message.into()
}
