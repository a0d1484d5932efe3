//! What the tests lend, what they ask, and what they are told.

use buckets::{Buckets, Cell};
use draft::Draft;
use entries::{BoardEntry, LabelEntry, Place, Rank};
use heap::Heap;
use image::Image;
use questions::{Standing, arrive, journey, profile};
use queue::Queue;
use refusals::Refusal;
pub use refusals::refused_as as told;
use search::search;
use std::test::Fail;
use timetable::{ConnectionNo, Label, Leg, Pair, Station, Timetable, Train};

/// No minute, no origin: expected, so it is the number that the format names and no constant of the code.
pub const NONE: u32 = 4_294_967_295;

// What is lent holds no defaults before a test, so that a test sees what was written, what was left and what was forgotten.

/// An old entry of a label memory.
pub const OLD: Label = Label {
    minute: 9,
    origin: 9,
};

/// An old pair of an output.
pub const OLD_PAIR: Pair = Pair {
    departure: 8,
    arrival: 8,
};

/// An old leg of an output.
pub const OLD_LEG: Leg = Leg {
    train: Train(8),
    first: ConnectionNo(8),
    last: ConnectionNo(8),
    departure: 8,
    arrival: 8,
};

const BOARD: BoardEntry = BoardEntry {
    minute: 7,
    connection: ConnectionNo(7),
};

const LABEL: LabelEntry = LabelEntry {
    minute: 7,
    rank: Rank(7),
    place: Place(7),
    origin: Place(7),
};

/// Runs the body of a test over the image of a draft.
pub fn over<F: FnOnce(&Image) -> Result<(), Fail>>(draft: &Draft, body: F) -> Result<(), Fail>
    requires { F.IsAlwaysCallable body }
{
    body(&Image::try_from(draft.bytes())?)
}

// The three below take what `search` takes, one by one.
/// A search with queues that hold something before it: first departures and leading labels.
fn by<T: Timetable, B: Queue<BoardEntry>, L: Queue<LabelEntry>>(
    t: &T,
    source: u16,
    board: &mut B,
    labels: &mut L,
    memory: &mut [Label],
) -> Result<(u32, u32), Refusal> {
    let _ = board.put(BOARD);
    let _ = labels.put(LABEL);
    let found = search(t, Station(source), board, labels, memory)?;
    Ok((found.departures, found.labels))
}

// `by_heaps` and `by_buckets` are two: a trait of the make of queue would need an associated type with a lifetime parameter,
// which the language has not.

/// A search with heaps of these capacities, at most 8 and 128.
pub fn by_heaps<T: Timetable>(
    t: &T,
    source: u16,
    board: usize,
    labels: usize,
    memory: &mut [Label],
) -> Result<(u32, u32), Refusal> {
    let mut firsts = [BOARD; 8];
    let mut waiting = [LABEL; 128];
    by(
        t,
        source,
        &mut Heap::new(&mut firsts[..board.min(8)]),
        &mut Heap::new(&mut waiting[..labels.min(128)]),
        memory,
    )
}

/// A search with bucket queues of these capacities, at most 8 and 128.
pub fn by_buckets<T: Timetable>(
    t: &T,
    source: u16,
    board: usize,
    labels: usize,
    memory: &mut [Label],
) -> Result<(u32, u32), Refusal> {
    let mut firsts = [Cell {
        entry: BOARD,
        next: 3,
    }; 8];
    let mut waiting = [Cell {
        entry: LABEL,
        next: 3,
    }; 128];
    by(
        t,
        source,
        &mut Buckets::new(&mut firsts[..board.min(8)]),
        &mut Buckets::new(&mut waiting[..labels.min(128)]),
        memory,
    )
}

/// Whether these are the minutes and origins of the memory's first entries.
pub fn holds(memory: &[Label], expected: &[(u32, u32)]) -> bool {
    expected.len() <= memory.len()
        && memory
            .iter()
            .zip(expected)
            .all(|(label, pair)| (label.minute, label.origin) == *pair)
}

// Pairs and legs are compared as tuples of their numbers, so that an expected value fits a line.

/// A leg: train, first and last connection, departure, arrival.
pub type LegNumbers = (u16, u16, u16, u32, u32);

pub fn leg_of(leg: Leg) -> LegNumbers {
    (
        leg.train.0,
        leg.first.0,
        leg.last.0,
        leg.departure,
        leg.arrival,
    )
}

/// An old leg.
pub const UNWRITTEN: LegNumbers = (8, 8, 8, 8, 8);

/// A timetable, a standing search on it, and the memory that holds its rows.
#[derive(Drop)]
pub struct Rows<'a, T> {
    t: &'a T,
    standing: Standing,
    memory: &'a [Label],
}

impl<'a, T: Timetable> Rows<'a, T> {
    /// A search from a source with so many rows.
    pub fn new(t: &'a T, source: u16, rows: u32, memory: &'a [Label]) -> Rows<'a, T> {
        let standing = Standing {
            source: Station(source),
            rows,
        };
        Rows {
            t,
            standing,
            memory,
        }
    }

    /// Departure and arrival.
    pub fn arrive(&self, target: u16, minute: u32) -> Result<(u32, u32), Refusal> {
        let pair = arrive(self.t, self.standing, self.memory, Station(target), minute)?;
        Ok((pair.departure, pair.arrival))
    }

    pub fn profile(&self, target: u16, out: &mut [Pair]) -> Result<usize, Refusal> {
        profile(self.t, self.standing, self.memory, Station(target), out)
    }

    pub fn journey(&self, target: u16, minute: u32, out: &mut [Leg]) -> Result<usize, Refusal> {
        journey(
            self.t,
            self.standing,
            self.memory,
            Station(target),
            minute,
            out,
        )
    }

    /// How many pairs were written, and the first two entries of the output (8 where nothing was written).
    pub fn pairs(&self, target: u16) -> Result<(usize, (u32, u32), (u32, u32)), Refusal> {
        let mut out = [OLD_PAIR; 3];
        let count = self.profile(target, &mut out)?;
        let [first, second, _] = out;
        Ok((
            count,
            (first.departure, first.arrival),
            (second.departure, second.arrival),
        ))
    }

    /// How many legs were written, and the first two of them (eights where nothing was written).
    pub fn legs(
        &self,
        target: u16,
        minute: u32,
    ) -> Result<(usize, LegNumbers, LegNumbers), Refusal> {
        let mut out = [OLD_LEG; 3];
        let count = self.journey(target, minute, &mut out)?;
        let [first, second, _] = out;
        Ok((count, leg_of(first), leg_of(second)))
    }
}
