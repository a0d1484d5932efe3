//! The timetable's questions, answered from the bytes.

ghost use Rattle.std.specs.Prelude.{◌≡◌};
ghost use Rattle.image.specs.Reader.{means};

use super::Image;
use crate::body::Body;
use refusals::Refusal;
use timetable::{Connection, ConnectionNo, Means, Station, Timetable};

impl Means for Image<'_> {
    ghost meaning = { means };

    ghost lawful = { λ x. x.lawful };
}

impl<'a> Image<'a> {
    /// The bytes, which have the length of an image.
    fn body(&self) -> Body<'a>
        ensures { result.bytes.now ≡ self.now.bytes.now }
    {
        Body { bytes: self.bytes }
    }
}

impl Timetable for Image<'_> {
    fn period(&self) -> u16 {
        self.body().header().period()
    }

    fn stations(&self) -> u16 {
        self.body().header().stations()
    }

    fn trains(&self) -> u16 {
        self.body().header().trains()
    }

    fn connections(&self) -> u16 {
        self.body().header().connections()
    }

    fn transfer(&self, station: Station) -> Result<u16, Refusal> {
        if station.0 >= self.stations() {
            return Err(Refusal::NoStation(station.0));
        }
        Ok(self.body().transfer(station.0))
    }

    fn connection(&self, number: ConnectionNo) -> Result<Connection, Refusal> {
        if number.0 >= self.connections() {
            return Err(Refusal::NoConnection(number.0));
        }
        Ok(self.body().record(number.0).into())
    }
}
