//! The header: its length, mark, version and numbers.

ghost use Rattle.std.specs.Prelude.{◌≡◌, ◌==◌, ◌≤◌, not, length, position, IfOk};
ghost use Rattle.std.specs.List.{zip};
ghost use Rattle.image.specs.Format.{mark, period_in, stations_in, trains_in, connections_in, counts_in, front_fault, limits_fault, Tells};

use crate::words::word;
use refusals::Refusal;
use timetable::Counts;

/// The position of the first byte that differs from the mark, if one does.
fn wrong_mark(bytes: &[u8]) -> Option<usize>
    ensures { result ≡ position (λ p. not (p.0 == p.1)) (zip bytes.now mark) }
{
    bytes
        .iter()
        .zip(b"PTT\0")
        .position(|(byte, mark)| byte != mark)
}

/// The bytes of an image, long enough for its header.
#[derive(Clone, Copy)]
pub(crate) struct Header<'a> {
    pub bytes: &'a [u8],
    ghost long: { 16 ≤ length bytes.now },
}

impl<'a> Header<'a> {
    /// Refused: `ShortHeader`, `WrongMark`, `UnknownVersion`.
    pub fn new(bytes: &'a [u8]) -> Result<Header<'a>, Refusal>
        ensures checked { Tells (front_fault bytes.now) result }
        ensures same { IfOk result (λ h. h.bytes.now ≡ bytes.now) }
    {
        if bytes.len() < 16 {
            return Err(Refusal::ShortHeader(bytes.len()));
        }
        if let Some(place) = wrong_mark(bytes) {
            return Err(Refusal::WrongMark(place));
        }
        let version = word(bytes, 4);
        if version != 1 {
            return Err(Refusal::UnknownVersion(version));
        }
        Ok(Header { bytes })
    }

    /// The period.
    pub fn period(&self) -> u16
        ensures { result ≡ period_in self.now.bytes.now }
    {
        word(self.bytes, 6)
    }

    /// The number of stations.
    pub fn stations(&self) -> u16
        ensures { result ≡ stations_in self.now.bytes.now }
    {
        word(self.bytes, 8)
    }

    /// The number of trains.
    pub fn trains(&self) -> u16
        ensures { result ≡ trains_in self.now.bytes.now }
    {
        word(self.bytes, 10)
    }

    /// The number of connections.
    pub fn connections(&self) -> u16
        ensures { result ≡ connections_in self.now.bytes.now }
    {
        word(self.bytes, 12)
    }

    /// These four numbers.
    pub fn counts(&self) -> Counts
        ensures { result ≡ counts_in self.now.bytes.now }
    {
        Counts {
            period: self.period(),
            stations: self.stations(),
            trains: self.trains(),
            connections: self.connections(),
        }
    }

    /// Refused: `HeaderLimit`.
    pub fn check_limits(&self) -> Result<(), Refusal>
        ensures { Tells (limits_fault self.now.bytes.now) result }
    {
        // Each number by its name: one loop over bytes and limits would not say which is which.
        if !(1..=10080).contains(&self.period()) {
            return Err(Refusal::HeaderLimit(6));
        }
        if !(1..=1024).contains(&self.stations()) {
            return Err(Refusal::HeaderLimit(8));
        }
        if self.trains() > 4096 {
            return Err(Refusal::HeaderLimit(10));
        }
        if self.connections() > 16384 {
            return Err(Refusal::HeaderLimit(12));
        }
        if word(self.bytes, 14) != 0 {
            return Err(Refusal::HeaderLimit(14));
        }
        Ok(())
    }
}
