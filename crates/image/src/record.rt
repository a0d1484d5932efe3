//! A connection's record.

ghost use Rattle.std.specs.Prelude.{◌≡◌, ◌+◌, ◌≤◌, length};
ghost use Rattle.image.specs.Format.{record_in, connection_of, fields_ok, goes_on};

use crate::words::word;
use timetable::{Connection, Counts, Station, Train};

/// The numbers of a record, as they stand in the image.
#[derive(Clone, Copy)]
pub(crate) struct Record {
    pub train: Train,
    pub start: Station,
    pub end: Station,
    pub departure: u16,
    pub ride: u16,
    pub mark: u16,
}

impl Record {
    /// The record at a byte.
    pub(crate) fn read(bytes: &[u8], at: usize) -> Record
        requires { at + 12 ≤ length bytes.now }
        ensures { result ≡ record_in bytes.now at }
    {
        Record {
            train: Train(word(bytes, at)),
            start: Station(word(bytes, at + 2)),
            end: Station(word(bytes, at + 4)),
            departure: word(bytes, at + 6),
            ride: word(bytes, at + 8),
            mark: word(bytes, at + 10),
        }
    }

    /// Whether every field is within its limit.
    pub fn is_within(self, counts: Counts) -> bool
        ensures { result ≡ fields_ok counts self }
    {
        self.train.0 < counts.trains
            && self.start.0 < counts.stations
            && self.end.0 < counts.stations
            && self.departure < counts.period
            && (1..=10080).contains(&self.ride)
            && self.mark <= 1
    }

    /// Whether the train rises, or goes on where it ended in the record before.
    pub fn follows(self, before: Record) -> bool
        ensures { result ≡ goes_on before self }
    {
        before.train < self.train || before.train == self.train && before.end == self.start
    }
}

impl From<Record> for Connection {
    ghost from_gives = { λ r c. c ≡ connection_of r };

    fn from(record: Record) -> Connection {
        Connection {
            train: record.train,
            start: record.start,
            end: record.end,
            departure: record.departure,
            ride: record.ride,
            runs: record.mark == 1,
        }
    }
}
