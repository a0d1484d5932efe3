//! Questions that always have an answer.

ghost use Rattle.std.specs.Prelude.{◌≡◌, ◌<◌};
ghost use Rattle.timetable.specs.Labels.{places};
ghost use Rattle.timetable.specs.Table.{at, transfer, ahead};

use crate::connection::Connection;
use crate::interface::Timetable;
use crate::numbers::{ConnectionNo, Station};

/// The transfer time of a station, or 0 where there is no such station.
pub fn transfer_at<T: Timetable>(t: &T, station: Station) -> u16
    ensures { result ≡ transfer (T.Means.meaning t.now) station.0 }
{
    t.transfer(station).unwrap_or(0)
}

/// The connection of a number, or one that does not run, of zeros, where there is none.
pub fn connection_at<T: Timetable>(t: &T, number: ConnectionNo) -> Connection
    ensures { result ≡ at (T.Means.meaning t.now) number.0 }
{
    t.connection(number).unwrap_or_default()
}

/// How many places there are: the stations and the connections.
pub fn places<T: Timetable>(t: &T) -> usize
    ensures { result ≡ places (T.Means.meaning t.now) }
{
    usize::from(t.stations()) + usize::from(t.connections())
}

/// How many minutes after `from` something departs next that departs at the minute `departure` of every period.
pub fn wait<T: Timetable>(t: &T, from: u32, departure: u16) -> u32
    ensures value { result ≡ ahead (T.Means.meaning t.now).period from departure }
    ensures below { result < (T.Means.meaning t.now).period }
{
    let period = u32::from(t.period());
    (u32::from(departure) + (period - from % period)) % period
}
