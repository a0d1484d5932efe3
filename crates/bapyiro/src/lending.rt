//! What the program lends to a search.

use buckets::Cell;
use entries::{BoardEntry, LabelEntry};
use std::alloc::{AllocError, Global};
use timetable::{Timetable, places};

/// The capacities of a search's queues and the length of its memory.
#[derive(Clone, Copy)]
pub(crate) struct Sizes {
    pub board: usize,
    pub labels: usize,
    pub memory: usize,
}

// The sums are those by which a search refuses; it names them only where it refuses, and here they are asked for before.
impl Sizes {
    /// As much as a search needs that has at most so many first departures.
    pub(crate) fn enough_for<T: Timetable>(t: &T, departures: usize) -> Sizes {
        Sizes {
            board: departures,
            labels: departures.saturating_mul(3 * usize::from(t.connections()) + 1),
            memory: departures.saturating_mul(places(t) + 1),
        }
    }

    /// The cells of a board and of a label queue, which hold these.
    fn cells<B: Copy, L: Copy>(
        self,
        heap: Global,
        board: B,
        label: L,
    ) -> Result<(Vec<B>, Vec<L>), AllocError> {
        let board = vec![in heap; board; self.board]?;
        let labels = vec![in heap; label; self.labels]?;
        Ok((board, labels))
    }

    /// The cells of two heaps.
    pub(crate) fn heap_cells(
        self,
        heap: Global,
    ) -> Result<(Vec<BoardEntry>, Vec<LabelEntry>), AllocError> {
        self.cells(heap, BoardEntry::default(), LabelEntry::default())
    }

    /// The cells of two bucket queues.
    pub(crate) fn bucket_cells(
        self,
        heap: Global,
    ) -> Result<(Vec<Cell<BoardEntry>>, Vec<Cell<LabelEntry>>), AllocError> {
        self.cells(
            heap,
            Cell::new(BoardEntry::default()),
            Cell::new(LabelEntry::default()),
        )
    }
}
