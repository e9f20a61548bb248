// What is printed of messages, and of the trains of a lost station.
ghost use Rattle.script.specs.Shown.{said_text, handed_text, delivery_text, lost_text};
ghost use Rattle.std.specs.Prelude.{Some};

use giving::ids::StationId;
use giving::message::Message;
use lines::frame::Frame;
use lines::hex::Hex;
use pieces::names::Train;
use std::fmt;

// A message as the station that says it prints it.
#[derive(Clone, Copy, Drop)]
pub struct Said(pub Message);

impl fmt::Display for Said {
    ghost output = { λ s. Some (said_text s.0) };

    fn fmt<W: fmt::Write>(&self, f: &mut fmt::Formatter<W>) -> fmt::Result {
        let Message { from, to, body } = self.0;
        let frame = Frame::of(body);
        write!(f, "{from} out {to} {}", Hex(frame.bytes()))
    }
}

// Bytes as the station that they come to prints them.
#[derive(Clone, Copy, Drop)]
pub struct Handed<'a> {
    pub to: u32,
    pub from: u32,
    pub bytes: &'a [u8],
}

impl<'a> fmt::Display for Handed<'a> {
    ghost output = { λ h. Some (handed_text h.to h.from h.bytes.now) };

    fn fmt<W: fmt::Write>(&self, f: &mut fmt::Formatter<W>) -> fmt::Result {
        write!(f, "{} < {} {}", self.to, self.from, Hex(self.bytes))
    }
}

// A message as the station that it comes to prints it.
#[derive(Clone, Copy, Drop)]
pub struct Delivery(pub Message);

impl fmt::Display for Delivery {
    ghost output = { λ d. Some (delivery_text d.0) };

    fn fmt<W: fmt::Write>(&self, f: &mut fmt::Formatter<W>) -> fmt::Result {
        let Message { from, to, body } = self.0;
        let frame = Frame::of(body);
        let handed = Handed {
            to: u32::from(to.0),
            from: u32::from(from.0),
            bytes: frame.bytes(),
        };
        write!(f, "{handed}")
    }
}

// A station that lost its file, and the trains that another one lists of it.
#[derive(Clone, Copy, Drop)]
pub struct Lost<'a> {
    pub other: StationId,
    pub trains: &'a [Train],
}

impl<'a> fmt::Display for Lost<'a> {
    ghost output = { λ l. Some (lost_text l.other l.trains.now) };

    fn fmt<W: fmt::Write>(&self, f: &mut fmt::Formatter<W>) -> fmt::Result {
        write!(f, "lost {}", self.other)?;
        for train in self.trains {
            write!(f, " {train}")?;
        }
        Ok(())
    }
}
