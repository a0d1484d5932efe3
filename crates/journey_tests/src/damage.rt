//! Rows that no search wrote: timetable A's rows, each time with one entry changed. Row 1 begins at entry 10; its entry of
//! place p is entry 11 + p.

use crate::shared::*;
use draft::examples::example_a;
use std::process::Abort;
use std::test::Fail;
use timetable::{Label, Timetable};

/// Arrive's departure and arrival, or the number and item of its refusal.
type Arrived = Result<(u32, u32), (u8, usize)>;

/// Journey's number of legs, or the number of its refusal.
type Travelled = Result<usize, u8>;

/// What arrive and journey to station 2 at 490 answer where one entry is changed.
fn with<T: Timetable>(t: &T, at: usize, minute: u32, origin: u32) -> (Arrived, Travelled) {
    let mut memory = [OLD; 30];
    let _ = by_heaps(t, 0, 3, 57, &mut memory);
    if let Some(entry) = memory.get_mut(at) {
        *entry = Label { minute, origin };
    }
    let rows = Rows::new(t, 0, 3, &memory);
    (
        rows.arrive(2, 490)
            .map_err(|refusal| (refusal.number(), refusal.item())),
        rows.legs(2, 490)
            .map(|(count, _, _)| count)
            .map_err(|refusal| refusal.number()),
    )
}

fn foreign<T: Timetable>(rt: &impl Abort, t: &T) {
    // a departure past the period, and one before that of the row before
    assert_eq!(rt; with(t, 10, 1440, 2), (Err((46, 1)), Err(46)));
    assert_eq!(rt; with(t, 10, 479, 2), (Err((46, 1)), Err(46)));
    assert_eq!(rt; with(t, 0, 491, 0), (Err((46, 1)), Err(46)));
    // the target's entry: not above the departure, past the limit, at the limit, blank
    assert_eq!(rt; with(t, 13, 490, 4), (Err((46, 1)), Err(46)));
    assert_eq!(rt; with(t, 13, 400_000_001, 4), (Err((46, 1)), Err(46)));
    assert_eq!(rt; with(t, 13, NONE - 1, 4), (Err((46, 1)), Err(46)));
    assert_eq!(rt; with(t, 13, 400_000_000, 4), (Ok((1430, 1470)), Ok(1)));
    assert_eq!(rt; with(t, 13, NONE, 4), (Ok((1430, 1470)), Ok(1)));
}

fn broken<T: Timetable>(rt: &impl Abort, t: &T) {
    // an origin that does not give the label, one that is no place, and none where the place is no connection's
    assert_eq!(rt; with(t, 13, 535, 6), (Ok((490, 535)), Err(46)));
    assert_eq!(rt; with(t, 13, 535, 9), (Ok((490, 535)), Err(46)));
    assert_eq!(rt; with(t, 13, 535, NONE), (Ok((490, 535)), Err(46)));
    // an origin's label that gives another minute, and a blank one
    assert_eq!(rt; with(t, 15, 506, 1), (Ok((490, 535)), Err(46)));
    assert_eq!(rt; with(t, 12, NONE, NONE), (Ok((490, 535)), Err(46)));
    // a row whose chain ends at another connection or another minute
    assert_eq!(rt; with(t, 10, 490, 0), (Ok((490, 535)), Err(46)));
    assert_eq!(rt; with(t, 10, 489, 2), (Ok((1430, 1470)), Ok(1)));
}

/// Rows 0 and 1 have the same pair; the journey is that of row 1.
fn twice<T: Timetable>(rt: &impl Abort, t: &T) -> Result<(), Fail> {
    let mut memory = [OLD; 30];
    assert_eq!(rt; by_heaps(t, 0, 3, 57, &mut memory)?, (3, 9));
    memory[0] = Label {
        minute: 490,
        origin: 0,
    };
    memory[3] = Label {
        minute: 535,
        origin: 0,
    };
    let rows = Rows::new(t, 0, 3, &memory);
    assert_eq!(rt; rows.pairs(2)?, (2, (490, 535), (1430, 1470)));
    assert_eq!(rt;
        rows.legs(2, 490)?,
        (2, (1, 2, 2, 490, 500), (0, 1, 1, 505, 535))
    );
    Ok(())
}

fn all<T: Timetable>(rt: &impl Abort, t: &T) -> Result<(), Fail> {
    foreign(rt, t);
    broken(rt, t);
    twice(rt, t)
}

#[test]
fn foreign_rows(rt: HostRuntime) -> Result<(), Fail> {
    over(&example_a(rt.alloc())?, |t| all(&rt, t))
}
