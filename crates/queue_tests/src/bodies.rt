//! What every make of queue must do. Each body clears the queue first.

use crate::model::{Draws, board, take_first};
use entries::{BoardEntry, LabelEntry, Place, Rank};
use queue::{Entry, Queue};
use refusals::refused_as as told;
use std::alloc::Global;
use std::fmt::Debug;
use std::process::Abort;
use std::test::Fail;

/// How many entries a hub minute has here.
const HUB: u32 = 4096;

pub fn label(minute: u32, rank: u32, place: u32, origin: u32) -> LabelEntry {
    LabelEntry {
        minute,
        rank: Rank(rank),
        place: Place(place),
        origin: Place(origin),
    }
}

fn put_all<E: Entry, Q: Queue<E>>(rt: &impl Abort, q: &mut Q, entries: &[E]) {
    for e in entries {
        assert_eq!(rt; told(q.put(*e)), None);
    }
}

/// Takes all that is held, which are these entries.
fn take_all<E: Entry + PartialEq + Debug, Q: Queue<E>>(rt: &impl Abort, q: &mut Q, entries: &[E]) {
    for e in entries {
        assert_eq!(rt; q.take(), Some(*e));
    }
    assert!(rt; q.take().is_none());
}

/// Thousands of entries of one minute fill the queue to the last cell, and come back the highest rank first.
pub fn hub_minute<Q: Queue<LabelEntry>>(rt: &impl Abort, q: &mut Q) -> Result<(), Fail> {
    q.clear();
    assert_eq!(rt; q.capacity(), 4096);
    for i in 0..HUB {
        // 1021 and 4096 have no factor in common, so each rank comes once
        let rank = i.wrapping_mul(1021) % HUB;
        assert_eq!(rt; told(q.put(label(540, rank, i, 7))), None);
    }
    assert_eq!(rt; told(q.put(label(541, 0, 0, 0))), Some((11, 4, 4096)));
    assert_eq!(rt; q.held(), 4096);
    for i in 0..HUB {
        let e = q.take().ok_or("none too early")?;
        assert_eq!(rt; (e.minute, e.rank.0), (540, HUB - 1 - i));
        assert_eq!(rt; e.place.0.wrapping_mul(1021) % HUB, e.rank.0);
    }
    assert!(rt; q.take().is_none());
    Ok(())
}

/// Within a minute the higher rank, then the lower place, then the higher origin.
pub fn label_order<Q: Queue<LabelEntry>>(rt: &impl Abort, q: &mut Q) {
    q.clear();
    let shuffled = [
        label(9, 1, 3, 4),
        label(8, 0, 9, 0),
        label(9, 1, 3, 5),
        label(9, 2, 9, 0),
        label(9, 1, 2, 0),
        label(9, 1, 3, 5),
    ];
    let expected = [
        label(8, 0, 9, 0),
        label(9, 2, 9, 0),
        label(9, 1, 2, 0),
        label(9, 1, 3, 5),
        label(9, 1, 3, 5),
        label(9, 1, 3, 4),
    ];
    put_all(rt, q, &shuffled);
    take_all(rt, q, &expected);
}

/// Minutes around the number of buckets, and the largest that there are.
fn far_apart<Q: Queue<BoardEntry>>(rt: &impl Abort, q: &mut Q) {
    q.clear();
    let shuffled = [
        board(400000255, 1),
        board(257, 2),
        board(0, 3),
        board(512, 4),
        board(255, 5),
        board(400000000, 6),
        board(256, 7),
        board(4294967295, 8),
        board(1, 9),
    ];
    let expected = [
        board(0, 3),
        board(1, 9),
        board(255, 5),
        board(256, 7),
        board(257, 2),
        board(512, 4),
        board(400000000, 6),
        board(400000255, 1),
        board(4294967295, 8),
    ];
    put_all(rt, q, &shuffled);
    take_all(rt, q, &expected);
    // an earlier minute than the last one taken
    put_all(rt, q, &[board(4294967295, 1), board(300, 2), board(44, 3)]);
    assert_eq!(rt; q.take(), Some(board(44, 3)));
    put_all(rt, q, &[board(43, 4), board(45, 5)]);
    take_all(
        rt,
        q,
        &[
            board(43, 4),
            board(45, 5),
            board(300, 2),
            board(4294967295, 1),
        ],
    );
}

/// A cell that was given back is used again, and a clear forgets what is held.
fn refill<Q: Queue<BoardEntry>>(rt: &impl Abort, q: &mut Q) {
    q.clear();
    assert_eq!(rt; q.capacity(), 16);
    for round in 0..40u32 {
        for i in 0..16u16 {
            assert_eq!(rt; told(q.put(board(round, i))), None);
        }
        assert_eq!(rt; told(q.put(board(0, 0))), Some((11, 4, 16)));
        for i in 0..8u16 {
            assert_eq!(rt; q.take(), Some(board(round, i)));
        }
        assert_eq!(rt; q.held(), 8);
        assert_eq!(rt; told(q.put(board(round, 3))), None);
        assert_eq!(rt; q.take(), Some(board(round, 3)));
        q.clear();
        assert_eq!(rt; q.held(), 0);
        assert!(rt; q.take().is_none());
    }
}

/// With no cell every put is refused, and nothing is held.
pub fn no_cells<Q: Queue<BoardEntry>>(rt: &impl Abort, q: &mut Q) {
    assert_eq!(rt; (q.capacity(), q.held()), (0, 0));
    assert_eq!(rt; told(q.put(board(1, 1))), Some((11, 4, 0)));
    assert!(rt; q.take().is_none());
    q.clear();
    assert_eq!(rt; told(q.put(board(1, 1))), Some((11, 4, 0)));
    assert!(rt; q.take().is_none());
}

/// One step of a random sequence, on the queue and on the list.
fn step<Q: Queue<BoardEntry>>(
    rt: &impl Abort,
    q: &mut Q,
    list: &mut Vec<BoardEntry>,
    number: u32,
    span: u32,
) -> Result<(), Fail> {
    match number / 65536 % 1000 {
        0..=1 => {
            q.clear();
            list.clear();
        }
        2..=549 => {
            let e = board(number % span.max(1), (number / 7 % 5) as u16);
            if list.len() < 16 {
                assert_eq!(rt; told(q.put(e)), None);
                list.push(e)?;
            } else {
                assert_eq!(rt; told(q.put(e)), Some((11, 4, 16)));
            }
        }
        _ => assert_eq!(rt; q.take(), take_first(list)),
    }
    assert_eq!(rt; q.held(), list.len());
    Ok(())
}

/// Two thousand puts, takes and clears beside a plain list, with minutes below `span`.
fn random<Q: Queue<BoardEntry>>(
    rt: &impl Abort,
    heap: Global,
    q: &mut Q,
    span: u32,
) -> Result<(), Fail> {
    q.clear();
    let mut list = Vec::new(heap);
    for number in Draws(span).take(2000) {
        step(rt, q, &mut list, number, span)?;
    }
    Ok(())
}

/// All that a queue of sixteen departures must do.
pub fn sixteen<Q: Queue<BoardEntry>>(rt: &impl Abort, heap: Global, q: &mut Q) -> Result<(), Fail> {
    far_apart(rt, q);
    refill(rt, q);
    for span in [10, 700, 4000000000] {
        random(rt, heap, q, span)?;
    }
    Ok(())
}
