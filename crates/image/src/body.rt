//! The transfer times and the records behind the header.

ghost use Rattle.std.specs.Prelude.{◌≡◌, ◌<◌, length, IfOk};
ghost use Rattle.image.specs.Format.{stations_in, connections_in, transfer_in, record_at, record_in, length_fault, transfer_fault, transfers_fault, record_fault, records_fault, Tells};

use crate::header::Header;
use crate::layout::{record_place, transfer_place};
use crate::record::Record;
use crate::words::word;
use refusals::Refusal;

/// The bytes of an image, as many as the numbers of its header ask for.
#[derive(Clone, Copy)]
pub(crate) struct Body<'a> {
    pub bytes: &'a [u8],
    ghost exact: { length bytes.now ≡ record_at bytes.now (connections_in bytes.now) },
}

impl<'a> Body<'a> {
    /// Refused: `WrongLength`.
    pub fn new(header: &Header<'a>) -> Result<Body<'a>, Refusal>
        ensures checked { Tells (length_fault header.now.bytes.now) result }
        ensures same { IfOk result (λ b. b.bytes.now ≡ header.now.bytes.now) }
    {
        let bytes = header.bytes;
        if bytes.len() != record_place(header.stations(), header.connections()) {
            return Err(Refusal::WrongLength(bytes.len()));
        }
        Ok(Body { bytes })
    }

    /// The header in front.
    pub fn header(&self) -> Header<'a>
        ensures { result.bytes.now ≡ self.now.bytes.now }
    {
        Header { bytes: self.bytes }
    }

    /// A station's transfer time.
    pub(crate) fn transfer(&self, station: u16) -> u16
        requires { station < stations_in self.now.bytes.now }
        ensures { result ≡ transfer_in self.now.bytes.now station }
    {
        word(self.bytes, transfer_place(station))
    }

    /// A connection's record.
    pub(crate) fn record(&self, number: u16) -> Record
        requires { number < connections_in self.now.bytes.now }
        ensures { result ≡ record_in self.now.bytes.now (record_at self.now.bytes.now number) }
    {
        let at = record_place(self.header().stations(), number);
        Record::read(self.bytes, at)
    }

    /// One station's transfer time.
    fn check_transfer(&self, station: u16) -> Result<(), Refusal>
        requires { station < stations_in self.now.bytes.now }
        ensures { Tells (transfer_fault self.now.bytes.now station) result }
    {
        if self.transfer(station) > 1440 {
            return Err(Refusal::LongTransfer(station));
        }
        Ok(())
    }

    /// Refused: `LongTransfer`, of the first such station.
    pub fn check_transfers(&self) -> Result<(), Refusal>
        ensures { Tells (transfers_fault self.now.bytes.now) result }
    {
        (0..self.header().stations()).try_for_each(|station| self.check_transfer(station))
    }

    /// One record.
    fn check_record(&self, number: u16) -> Result<(), Refusal>
        requires { number < connections_in self.now.bytes.now }
        ensures { Tells (record_fault self.now.bytes.now number) result }
    {
        let record = self.record(number);
        if !record.is_within(self.header().counts()) {
            return Err(Refusal::RecordLimit(number));
        }
        if record.start == record.end {
            return Err(Refusal::SameStation(number));
        }
        if number > 0 && !record.follows(self.record(number - 1)) {
            return Err(Refusal::BrokenTrain(number));
        }
        Ok(())
    }

    /// Refused, record by record: `RecordLimit`, `SameStation`, `BrokenTrain`.
    pub fn check_records(&self) -> Result<(), Refusal>
        ensures { Tells (records_fault self.now.bytes.now) result }
    {
        (0..self.header().connections()).try_for_each(|number| self.check_record(number))
    }
}
