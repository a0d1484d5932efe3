//! The two example timetables, as images.

ghost use Rattle.std.specs.Prelude.{◌≡◌, true, IfOk};
ghost use Rattle.timetable.specs.Examples.{running, timetable_a, timetable_b};
ghost use Rattle.image.specs.Written.{written};

use crate::packed::Draft;
use std::alloc::{AllocError, Global};
use timetable::{Connection, Counts, Station, Train};

/// A connection that runs.
pub fn runs(train: u16, start: u16, end: u16, departure: u16, ride: u16) -> Connection
    ensures { result ≡ running train start end departure ride }
{
    Connection {
        train: Train(train),
        start: Station(start),
        end: Station(end),
        departure,
        ride,
        runs: true,
    }
}

/// Timetable A: a day with five trains between three stations.
pub fn example_a(heap: Global) -> Result<Draft, AllocError>
    ensures { IfOk result (λ d. d ≡ written timetable_a) }
{
    let counts = Counts {
        period: 1440,
        stations: 3,
        trains: 5,
        connections: 6,
    };
    Draft::of(
        heap,
        counts,
        &[3, 5, 4],
        &[
            runs(0, 0, 1, 480, 20),
            runs(0, 1, 2, 505, 30),
            runs(1, 0, 1, 490, 10),
            runs(2, 1, 2, 504, 25),
            runs(3, 0, 2, 1430, 40),
            runs(4, 1, 2, 530, 20),
        ],
    )
}

/// Timetable B: an hour with two trains between two stations.
pub fn example_b(heap: Global) -> Result<Draft, AllocError>
    ensures { IfOk result (λ d. d ≡ written timetable_b) }
{
    let counts = Counts {
        period: 60,
        stations: 2,
        trains: 2,
        connections: 2,
    };
    Draft::of(
        heap,
        counts,
        &[0, 0],
        &[runs(0, 0, 1, 50, 30), runs(1, 0, 1, 5, 10)],
    )
}
