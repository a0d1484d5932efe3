//! The plan of a search: its source and its sizes, and whether what is lent suffices.

ghost use Rattle.std.specs.Prelude.{◌≡◌};
ghost use Rattle.std.specs.Result.{result_err};
ghost use Rattle.timetable.specs.Labels.{ranks, places as all_places};
ghost use Rattle.search.specs.Sizes.{search_refusal};

use crate::board::is_first;
use refusals::{Refusal, enough};
use timetable::{ConnectionNo, Means, Station, Timetable, connection_at, places};

/// A search from a source over a timetable: how many places and how many first departures there are.
#[derive(Drop)]
pub struct Plan<'t, T: Timetable> {
    pub t: &'t T,
    pub source: Station,
    pub places: usize,
    pub departures: u32,
    ghost every_place: { places ≡ all_places (T.Means.meaning t.now) },
    ghost every_rank: { departures ≡ ranks (T.Means.meaning t.now) source.0 },
}

/// How many first departures there are from a source: the connections that run and start there.
pub fn departures<T: Timetable>(t: &T, source: Station) -> usize
    ensures { result ≡ ranks (T.Means.meaning t.now) source.0 }
{
    (0..t.connections())
        .filter(|c| is_first(connection_at(t, ConnectionNo(*c)), source))
        .count()
}

impl<'t, T: Timetable> Plan<'t, T> {
    /// The plan of a search from a source.
    pub fn new(t: &'t T, source: Station) -> Self
        ensures table { result.t.now ≡ t.now }
        ensures source { result.source ≡ source }
    {
        Plan {
            t,
            source,
            places: places(t),
            departures: departures(t, source) as u32,
        }
    }

    /// Whether the source is a station, and the capacities of the queues and the length of the memory suffice.
    pub fn check(&self, board: usize, labels: usize, memory: usize) -> Result<(), Refusal>
        ensures { result_err result ≡ search_refusal (T.Means.meaning self.now.t.now) self.now.source.0 board labels memory }
    {
        let departures = self.departures as usize;
        // each rank puts its first ride, and at most a ride's arrival, a stay and a change for each connection
        let puts = departures * (3 * usize::from(self.t.connections()) + 1);
        let entries = departures * (self.places + 1);
        if self.t.stations() <= self.source.0 {
            return Err(Refusal::NoSource(self.source.0));
        }
        enough(board, departures, Refusal::SmallBoard(departures))?;
        enough(labels, puts, Refusal::SmallLabelQueue(puts))?;
        enough(memory, entries, Refusal::SmallLabelMemory(entries))
    }
}
