//! The interface of a timetable: what it means, and the questions that answer from that meaning.

ghost use Rattle.std.specs.Prelude.{◌≡◌, ◌<◌, ◌≤◌, MatchResult};
ghost use Rattle.refusals.specs.declared.refusal.Refusal.TheVariants.{NoStation, NoConnection};
ghost use Rattle.timetable.specs.Table.{Table, Lawful, at, stations, connections, transfer};

use crate::connection::Connection;
use crate::numbers::{ConnectionNo, Station};
use refusals::Refusal;

/// What an implementation means: a table that keeps every rule of a timetable.
pub trait Means {
    ghost meaning: { Self → Table };

    ghost lawful: { (x : Self) → Lawful (meaning x) };
}

/// The questions to a timetable. They answer what the meaning holds, alike each time, and change nothing.
pub trait Timetable: Means {
    /// The minutes after which all repeats.
    fn period(&self) -> u16
        ensures { result ≡ (Self.Means.meaning self.now).period };

    /// How many stations there are.
    fn stations(&self) -> u16
        ensures { result ≡ stations (Self.Means.meaning self.now) };

    /// How many trains there are.
    fn trains(&self) -> u16
        ensures { result ≡ (Self.Means.meaning self.now).trains };

    /// How many connections there are.
    fn connections(&self) -> u16
        ensures { result ≡ connections (Self.Means.meaning self.now) };

    /// The transfer time of a station. Refused: `NoStation` where there is none of that number.
    fn transfer(&self, station: Station) -> Result<u16, Refusal>
        ensures { MatchResult result (λ n. (station.0 < stations (Self.Means.meaning self.now)) × (n ≡ transfer (Self.Means.meaning self.now) station.0)) (λ e. (stations (Self.Means.meaning self.now) ≤ station.0) × (e ≡ NoStation station.0)) };

    /// The connection of a number. Refused: `NoConnection` where there is none.
    fn connection(&self, number: ConnectionNo) -> Result<Connection, Refusal>
        ensures { MatchResult result (λ c. (number.0 < connections (Self.Means.meaning self.now)) × (c ≡ at (Self.Means.meaning self.now) number.0)) (λ e. (connections (Self.Means.meaning self.now) ≤ number.0) × (e ≡ NoConnection number.0)) };
}
