//! The worked examples, by real calls.

use crate::shared::*;
use draft::examples::{example_a, example_b};
use notices::Notices;
use std::process::Abort;
use std::test::Fail;
use timetable::{Timetable, Train};

/// The rows of timetable A from station 0: three rows of ten entries.
const ROWS: [(u32, u32); 31] = [
    (480, 0),
    (NONE, NONE),
    (NONE, NONE),
    (NONE, NONE),
    (480, NONE),
    (NONE, NONE),
    (NONE, NONE),
    (NONE, NONE),
    (NONE, NONE),
    (NONE, NONE),
    (490, 2),
    (NONE, NONE),
    (500, 5),
    (535, 4),
    (NONE, NONE),
    (505, 1),
    (490, NONE),
    (1944, 1),
    (NONE, NONE),
    (530, 1),
    (1430, 4),
    (NONE, NONE),
    (NONE, NONE),
    (1470, 7),
    (NONE, NONE),
    (NONE, NONE),
    (NONE, NONE),
    (NONE, NONE),
    (1430, NONE),
    (NONE, NONE),
    (9, 9),
];

fn arrivals_of_a<T: Timetable>(rt: &impl Abort, rows: &Rows<T>) -> Result<(), Fail> {
    assert_eq!(rt; rows.arrive(2, 490)?, (490, 535));
    assert_eq!(rt; rows.arrive(2, 491)?, (1430, 1470));
    assert_eq!(rt; rows.arrive(2, 1431)?, (1930, 1975));
    Ok(())
}

fn questions_of_a<T: Timetable>(rt: &impl Abort, rows: &Rows<T>) -> Result<(), Fail> {
    assert_eq!(rt; rows.pairs(2)?, (2, (490, 535), (1430, 1470)));
    assert_eq!(rt; rows.pairs(1)?, (1, (490, 500), (8, 8)));
    arrivals_of_a(rt, rows)?;
    assert_eq!(rt;
        rows.legs(2, 490)?,
        (2, (1, 2, 2, 490, 500), (0, 1, 1, 505, 535))
    );
    assert_eq!(rt;
        rows.legs(2, 1431)?,
        (2, (1, 2, 2, 1930, 1940), (0, 1, 1, 1945, 1975))
    );
    Ok(())
}

fn a_by_heaps<T: Timetable>(rt: &impl Abort, t: &T) -> Result<(), Fail> {
    let mut memory = [OLD; 31];
    assert_eq!(rt; by_heaps(t, 0, 3, 57, &mut memory)?, (3, 9));
    assert!(rt; holds(&memory, &ROWS));
    questions_of_a(rt, &Rows::new(t, 0, 3, &memory))
}

fn a_by_buckets<T: Timetable>(rt: &impl Abort, t: &T) -> Result<(), Fail> {
    let mut memory = [OLD; 31];
    assert_eq!(rt; by_buckets(t, 0, 3, 57, &mut memory)?, (3, 9));
    assert!(rt; holds(&memory, &ROWS));
    Ok(())
}

fn a<T: Timetable>(rt: &impl Abort, t: &T) -> Result<(), Fail> {
    a_by_heaps(rt, t)?;
    a_by_buckets(rt, t)
}

#[test]
fn timetable_a(rt: HostRuntime) -> Result<(), Fail> {
    over(&example_a(rt.alloc())?, |t| a(&rt, t))
}

fn b<T: Timetable>(rt: &impl Abort, t: &T) -> Result<(), Fail> {
    let mut memory = [OLD; 10];
    assert_eq!(rt; by_buckets(t, 0, 2, 14, &mut memory)?, (2, 4));
    let rows = Rows::new(t, 0, 2, &memory);
    assert_eq!(rt; rows.pairs(1)?, (1, (5, 15), (8, 8)));
    assert_eq!(rt; rows.arrive(1, 50)?, (65, 75));
    Ok(())
}

#[test]
fn timetable_b(rt: HostRuntime) -> Result<(), Fail> {
    over(&example_b(rt.alloc())?, |t| b(&rt, t))
}

fn late_2<T: Timetable>(rt: &impl Abort, t: &T) -> Result<(), Fail> {
    let mut memory = [OLD; 30];
    assert_eq!(rt; by_heaps(t, 0, 3, 57, &mut memory)?, (3, 9));
    let rows = Rows::new(t, 0, 3, &memory);
    assert_eq!(rt; rows.pairs(2)?, (2, (490, 530), (1430, 1470)));
    Ok(())
}

fn without_1<T: Timetable>(rt: &impl Abort, t: &T) -> Result<(), Fail> {
    let mut memory = [OLD; 20];
    assert_eq!(rt; by_heaps(t, 0, 2, 38, &mut memory)?, (2, 8));
    assert_eq!(rt;
        Rows::new(t, 0, 2, &memory).legs(2, 480)?,
        (1, (0, 0, 1, 480, 535), UNWRITTEN)
    );
    Ok(())
}

fn reported<T: Timetable>(rt: &impl Abort, t: &mut Notices<T>) -> Result<(), Fail> {
    t.late(Train(2), 1)?;
    late_2(rt, t)?;
    t.lift(Train(2))?;
    t.cancel(Train(1))?;
    without_1(rt, t)
}

#[test]
fn timetable_a_under_notices(rt: HostRuntime) -> Result<(), Fail> {
    over(&example_a(rt.alloc())?, |t| {
        reported(&rt, &mut Notices::new(*t))
    })
}
