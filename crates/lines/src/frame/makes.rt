// Messages written as bytes.
ghost use Rattle.std.specs.Prelude.{◌≡◌, ◌+◌, ◌≤◌, [], ◌∷◌, ◌++◌, length};
ghost use Rattle.lines.specs.Bytes.{body_bytes};
ghost use Rattle.lines.specs.Frames.{bytes_in};

use super::Frame;
use crate::writing::given;
use giving::message::Body;

impl Frame {
    // Nothing but a kind.
    fn kind(kind: u8) -> Frame
        ensures bytes { bytes_in result ≡ kind ∷ [] }
        ensures len { result.len ≡ 1 }
    {
        Frame {
            buffer: [kind; 13],
            len: 1,
        }
    }

    // With these bytes behind.
    fn with(self, bytes: &[u8]) -> Frame
        requires { self.len + length bytes.now ≤ 13 }
        ensures bytes { bytes_in result ≡ bytes_in self ++ bytes.now }
        ensures len { result.len ≡ self.len + length bytes.now }
    {
        let len = self.len + bytes.len();
        let mut buffer = self.buffer;
        buffer[self.len..len].copy_from_slice(bytes);
        Frame { buffer, len }
    }

    pub fn of(body: Body) -> Frame
        ensures { bytes_in result ≡ body_bytes body }
    {
        match body {
            Body::Given(number, piece) => Frame {
                buffer: given(number, piece),
                len: 13,
            },
            Body::Taken(number) => Frame::kind(2).with(&number.0.to_be_bytes()),
            Body::Asked(ask, demand) => Frame::kind(3)
                .with(&demand.train.0.to_be_bytes())
                .with(&[demand.from.0, demand.to.0, demand.people])
                .with(&ask.0.to_be_bytes()),
            Body::Answered(ask, pieces) => Frame::kind(4)
                .with(&ask.0.to_be_bytes())
                .with(&[pieces]),
            Body::Told(train, tally) => Frame::kind(5)
                .with(&train.0.to_be_bytes())
                .with(&tally.whole.to_be_bytes())
                .with(&tally.any.to_be_bytes()),
        }
    }

    pub fn bytes(&self) -> &[u8]
        ensures { result.now ≡ bytes_in self.now }
    {
        &self.buffer[..self.len]
    }
}
