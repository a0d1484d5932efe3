ghost use Rattle.std.specs.Prelude.{◌≡◌, [], length};
ghost use Rattle.heap.specs.InHeap.{heap_room, heap_bag, HeapOrdered};

use crate::sift::{rise, sink};
use queue::{Entry, Queue, check_room};
use refusals::Refusal;

/// A queue in the caller's slice of entries: the first `len` of them are held, as a binary heap.
// The cells are lent and of a fixed number, so a length stands beside them.
#[derive(Drop)]
pub struct Heap<'a, E: Entry> {
    cells: &'a mut [E],
    len: usize,
}

impl<'a, E: Entry> Heap<'a, E> {
    /// An empty queue, in order. Whatever the cells hold is forgotten.
    pub fn new(cells: &'a mut [E]) -> Heap<'a, E>
        ensures room { heap_room result ≡ length cells.old }
        ensures ordered { HeapOrdered E.Entry.ahead result }
        ensures none { heap_bag E.Entry.ahead result ≡ [] }
    {
        Heap { cells, len: 0 }
    }
}

impl<E: Entry> Queue<E> for Heap<'_, E> {
    ghost bag = { heap_bag E.Entry.ahead };

    ghost room = { heap_room };

    ghost ordered = { HeapOrdered E.Entry.ahead };

    fn put(&mut self, e: E) -> Result<(), Refusal> {
        let n = self.len;
        check_room(n, self.cells.len())?;
        rise(&mut self.cells[0..n + 1], n, e);
        self.len = n + 1;
        Ok(())
    }

    fn take(&mut self) -> Option<E> {
        // By index: after `split_last_mut` the proof does not know what the field's slice holds.
        let end = self.len.checked_sub(1)?;
        // Safe in any state: in a queue in order it never comes to this.
        if self.cells.len() <= end {
            return None;
        }
        let first = self.cells[0];
        let last = self.cells[end];
        self.len = end;
        sink(&mut self.cells[0..end], 0, last);
        Some(first)
    }

    fn clear(&mut self) {
        self.len = 0;
    }

    fn held(&self) -> usize {
        self.len
    }

    fn capacity(&self) -> usize {
        self.cells.len()
    }
}
