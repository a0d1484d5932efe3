//! Every refusal of a search and of a question at the edge of its limit, on timetable A.

use crate::shared::*;
use draft::examples::example_a;
use std::process::Abort;
use std::test::Fail;
use timetable::Timetable;

// Tests of one shape stay apart: what is left of each is its own make, cells, numbers and name.
fn unknown_source<T: Timetable>(rt: &impl Abort, t: &T) {
    let mut memory = [OLD; 30];
    assert_eq!(rt; told(by_heaps(t, 3, 0, 0, &mut memory)), Some((31, 3, 3)));
}

fn small_board<T: Timetable>(rt: &impl Abort, t: &T) {
    let mut memory = [OLD; 30];
    assert_eq!(rt; told(by_heaps(t, 0, 2, 0, &mut memory)), Some((32, 3, 3)));
}

fn small_label_queue<T: Timetable>(rt: &impl Abort, t: &T) {
    let mut memory = [OLD; 29];
    assert_eq!(rt; told(by_heaps(t, 0, 3, 56, &mut memory)), Some((33, 3, 57)));
}

fn small_memory<T: Timetable>(rt: &impl Abort, t: &T) {
    let mut memory = [OLD; 29];
    assert_eq!(rt;
        told(by_buckets(t, 0, 3, 57, &mut memory)),
        Some((34, 3, 30))
    );
    assert!(rt; holds(&memory, &[(9, 9); 29]));
}

/// From station 2 nothing departs, so nothing is needed, and no station is reached.
fn no_departure<T: Timetable>(rt: &impl Abort, t: &T) -> Result<(), Fail> {
    let mut memory = [OLD; 0];
    assert_eq!(rt; by_heaps(t, 2, 0, 0, &mut memory)?, (0, 0));
    let rows = Rows::new(t, 2, 0, &memory);
    assert_eq!(rt; told(rows.arrive(0, 0)), Some((47, 3, 0)));
    Ok(())
}

fn searches<T: Timetable>(rt: &impl Abort, t: &T) -> Result<(), Fail> {
    unknown_source(rt, t);
    small_board(rt, t);
    small_label_queue(rt, t);
    small_memory(rt, t);
    no_departure(rt, t)
}

#[test]
fn search_refused(rt: HostRuntime) -> Result<(), Fail> {
    over(&example_a(rt.alloc())?, |t| searches(&rt, t))
}

fn arrivals<T: Timetable>(rt: &impl Abort, rows: &Rows<T>) {
    assert_eq!(rt; told(rows.arrive(3, 1440)), Some((42, 3, 3)));
    assert_eq!(rt; told(rows.arrive(0, 1440)), Some((43, 3, 0)));
    assert_eq!(rt; told(rows.arrive(2, 1440)), Some((44, 3, 1440)));
    assert_eq!(rt; told(rows.arrive(2, 1439)), None);
}

fn short_rows<T: Timetable>(rt: &impl Abort, t: &T) {
    let rows = Rows::new(t, 0, 3, &[OLD; 29]);
    assert_eq!(rt; told(rows.arrive(2, 1440)), Some((44, 3, 1440)));
    assert_eq!(rt; told(rows.arrive(2, 1439)), Some((45, 3, 30)));
}

/// Profile with room for one pair, then for two.
fn profiles<T: Timetable>(rt: &impl Abort, rows: &Rows<T>) -> Result<(), Fail> {
    let mut one = [OLD_PAIR; 1];
    assert_eq!(rt; told(rows.profile(2, &mut one)), Some((48, 3, 2)));
    assert_eq!(rt; one[0].departure, 8);
    let mut two = [OLD_PAIR; 2];
    assert_eq!(rt; told(rows.profile(3, &mut two)), Some((42, 3, 3)));
    assert_eq!(rt; rows.profile(2, &mut two)?, 2);
    Ok(())
}

/// Journey with room for one leg, then for two.
fn journeys<T: Timetable>(rt: &impl Abort, rows: &Rows<T>) -> Result<(), Fail> {
    let mut one = [OLD_LEG; 1];
    assert_eq!(rt; told(rows.journey(2, 490, &mut one)), Some((48, 3, 2)));
    assert_eq!(rt; leg_of(one[0]), UNWRITTEN);
    let mut two = [OLD_LEG; 2];
    assert_eq!(rt; told(rows.journey(2, 1440, &mut two)), Some((44, 3, 1440)));
    assert_eq!(rt; rows.journey(2, 490, &mut two)?, 2);
    Ok(())
}

fn questions<T: Timetable>(rt: &impl Abort, t: &T) -> Result<(), Fail> {
    let mut memory = [OLD; 30];
    assert_eq!(rt; by_heaps(t, 0, 3, 57, &mut memory)?, (3, 9));
    let rows = Rows::new(t, 0, 3, &memory);
    arrivals(rt, &rows);
    short_rows(rt, t);
    profiles(rt, &rows)?;
    journeys(rt, &rows)
}

#[test]
fn question_refused(rt: HostRuntime) -> Result<(), Fail> {
    over(&example_a(rt.alloc())?, |t| questions(&rt, t))
}
