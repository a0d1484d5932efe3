//! Timetables of particular shapes.

use crate::shared::*;
use draft::Draft;
use draft::examples::runs;
use std::alloc::{AllocError, Global};
use std::process::Abort;
use std::test::Fail;
use timetable::{Counts, Timetable};

/// An hour with no transfer times: train 0 goes from 0 to 1 over the end of the hour and stays there until it goes on to 2;
/// train 1 goes from 1 to 2.
fn night(heap: Global) -> Result<Draft, AllocError> {
    let counts = Counts {
        period: 60,
        stations: 3,
        trains: 2,
        connections: 3,
    };
    Draft::of(
        heap,
        counts,
        &[0, 0, 0],
        &[
            runs(0, 0, 1, 50, 20),
            runs(0, 1, 2, 5, 10),
            runs(1, 1, 2, 12, 10),
        ],
    )
}

fn over_the_end<T: Timetable>(rt: &impl Abort, t: &T) -> Result<(), Fail> {
    let mut memory = [OLD; 7];
    assert_eq!(rt; by_heaps(t, 0, 1, 10, &mut memory)?, (1, 5));
    assert!(rt;
        holds(
            &memory,
            &[
                (50, 0),
                (NONE, NONE),
                (70, 3),
                (82, 5),
                (50, NONE),
                (125, 3),
                (72, 1),
            ],
        )
    );
    let rows = Rows::new(t, 0, 1, &memory);
    assert_eq!(rt; rows.pairs(2)?, (1, (50, 82), (8, 8)));
    assert_eq!(rt; rows.arrive(2, 51)?, (110, 142));
    assert_eq!(rt;
        rows.legs(2, 51)?,
        (2, (0, 0, 0, 110, 130), (1, 2, 2, 132, 142))
    );
    Ok(())
}

#[test]
fn stays_over_the_end(rt: HostRuntime) -> Result<(), Fail> {
    over(&night(rt.alloc())?, |t| over_the_end(&rt, t))
}

/// One train alone, which stands 55 minutes at station 1.
fn alone(heap: Global) -> Result<Draft, AllocError> {
    let counts = Counts {
        period: 60,
        stations: 3,
        trains: 1,
        connections: 2,
    };
    Draft::of(
        heap,
        counts,
        &[5, 5, 5],
        &[runs(0, 0, 1, 50, 20), runs(0, 1, 2, 5, 10)],
    )
}

// Tests of one shape stay apart: what is left of each is its own make, cells, numbers and name.
fn one_leg<T: Timetable>(rt: &impl Abort, t: &T) -> Result<(), Fail> {
    let mut memory = [OLD; 6];
    assert_eq!(rt; by_heaps(t, 0, 1, 7, &mut memory)?, (1, 4));
    assert_eq!(rt;
        Rows::new(t, 0, 1, &memory).legs(2, 10)?,
        (1, (0, 0, 1, 50, 135), UNWRITTEN)
    );
    Ok(())
}

#[test]
fn a_long_stay(rt: HostRuntime) -> Result<(), Fail> {
    over(&alone(rt.alloc())?, |t| one_leg(&rt, t))
}

/// A hub minute: four trains leave 0 at minute 50 and reach the hub, station 1, at 60; there a train leaves for each of four
/// stations in that same minute. Every train has one connection.
fn hub(heap: Global) -> Result<Draft, AllocError> {
    let mut draft = Draft::new(
        heap,
        Counts {
            period: 60,
            stations: 6,
            trains: 8,
            connections: 8,
        },
    )?;
    for _ in 0..6 {
        draft.transfer(0)?;
    }
    for train in 0..4 {
        draft.connection(runs(train, 0, 1, 50, 10))?;
    }
    for train in 4..8 {
        draft.connection(runs(train, 1, train - 2, 0, train + 1))?;
    }
    Ok(draft)
}

/// The row of the highest rank: all leading labels but the first rides of the other ranks.
const LAST_ROW: [(u32, u32); 15] = [
    (50, 3),
    (NONE, NONE),
    (60, 9),
    (65, 10),
    (66, 11),
    (67, 12),
    (68, 13),
    (NONE, NONE),
    (NONE, NONE),
    (NONE, NONE),
    (50, NONE),
    (60, 1),
    (60, 1),
    (60, 1),
    (60, 1),
];

fn hub_minute<T: Timetable>(rt: &impl Abort, t: &T) -> Result<(), Fail> {
    let mut memory = [OLD; 60];
    assert_eq!(rt; by_buckets(t, 0, 4, 100, &mut memory)?, (4, 13));
    assert!(rt; holds(&memory[45..60], &LAST_ROW));
    let rows = Rows::new(t, 0, 4, &memory);
    assert_eq!(rt; rows.pairs(5)?, (1, (50, 68), (8, 8)));
    assert_eq!(rt; rows.legs(2, 0)?, (2, (3, 3, 3, 50, 60), (4, 4, 4, 60, 65)));
    Ok(())
}

#[test]
fn the_hub(rt: HostRuntime) -> Result<(), Fail> {
    over(&hub(rt.alloc())?, |t| hub_minute(&rt, t))
}
