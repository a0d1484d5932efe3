ghost use Rattle.std.specs.Prelude.{◌≡◌, ◌%◌, ◌<◌, ◌≤◌, [], length, MatchOption, slice_index_or};
ghost use Rattle.queue.specs.Order.{inserted};
ghost use Rattle.buckets.specs.Bitmap.{occupied, Clear};
ghost use Rattle.buckets.specs.InBuckets.{Leads, bucket_room, bucket_bag, BucketFine, BucketReserved};

use crate::chain::{Cell, NONE, link};
use crate::front::Front;
use crate::heads::Heads;
use queue::{Entry, Queue, check_room};
use refusals::Refusal;

/// A queue in the caller's cells: an entry is in the chain of its minute modulo 256.
// The cells are lent and of a fixed number, so how far they are used and how many hold an entry stand beside them.
#[derive(Drop)]
pub struct Buckets<'a, E: Entry> {
    cells: &'a mut [Cell<E>],
    heads: Heads,
    /// cells that were given back, in a chain
    free: usize,
    /// cells from here on were not used since the last clear
    fresh: usize,
    len: usize,
    /// no entry held has an earlier minute
    low: u32,
}

fn bucket_of<E: Entry>(e: &E) -> u8
    ensures { result ≡ E.Entry.minute_of e.now % 256 }
{
    (e.minute() % 256) as u8
}

impl<'a, E: Entry> Buckets<'a, E> {
    /// An empty queue, in order. Whatever the cells hold is forgotten.
    pub fn new(cells: &'a mut [Cell<E>]) -> Buckets<'a, E>
        ensures room { bucket_room result ≡ length cells.old }
        ensures ordered { BucketFine E.Entry.ahead E.Entry.minute_of result }
        ensures none { bucket_bag E.Entry.ahead result ≡ [] }
    {
        Buckets {
            cells,
            heads: Heads::new(),
            free: NONE,
            fresh: 0,
            len: 0,
            low: u32::MAX,
        }
    }

    /// The cell `at`, if there is one.
    fn cell(&self, at: usize) -> Option<Cell<E>>
        ensures { MatchOption result (length self.now.cells.now ≤ at) (λ c. (at < length self.now.cells.now) × (c ≡ slice_index_or self.now.cells.now at c)) }
    {
        self.cells.get(at).copied()
    }

    /// The bucket to take from.
    fn front(&self) -> Option<u8>
        ensures { BucketFine E.Entry.ahead E.Entry.minute_of self.now → MatchOption result (Clear (occupied self.now.heads.bits) 0 256) (λ b. Leads E.Entry.ahead self.now.cells.now self.now.heads.bits self.now.heads.first b) }
    {
        let front = Front {
            cells: self.cells,
            heads: &self.heads,
        };
        front.nearest(self.low)
    }

    /// Puts e into the cell `new`, which is in no chain.
    fn place(&mut self, new: usize, e: E)
        requires { new < length self.old.cells.now }
        ensures room { bucket_room self.new ≡ bucket_room self.old }
        ensures ordered { BucketReserved E.Entry.ahead E.Entry.minute_of new self.old → BucketFine E.Entry.ahead E.Entry.minute_of self.new }
        ensures held { BucketReserved E.Entry.ahead E.Entry.minute_of new self.old → bucket_bag E.Entry.ahead self.new ≡ inserted E.Entry.ahead e (bucket_bag E.Entry.ahead self.old) }
    {
        let low = self.low.min(e.minute());
        let b = bucket_of(&e);
        let head = self.heads.first(b);
        let start = link(self.cells, head, new, e);
        self.heads.fill(b, start);
        // Safe in any state: in a queue in order the sum is never cut off.
        self.len = self.len.saturating_add(1);
        self.low = low;
    }
}

impl<E: Entry> Queue<E> for Buckets<'_, E> {
    ghost bag = { bucket_bag E.Entry.ahead };

    ghost room = { bucket_room };

    ghost ordered = { BucketFine E.Entry.ahead E.Entry.minute_of };

    fn put(&mut self, e: E) -> Result<(), Refusal> {
        let back = self.free;
        if let Some(cell) = self.cell(back) {
            self.free = cell.next;
            self.place(back, e);
            return Ok(());
        }
        let new = self.fresh;
        check_room(new, self.cells.len())?;
        self.fresh = new + 1;
        self.place(new, e);
        Ok(())
    }

    fn take(&mut self) -> Option<E> {
        let b = self.front()?;
        let at = self.heads.first(b);
        let cell = self.cell(at)?;
        self.heads.advance(b, cell.next, self.cells.len());
        self.cells[at].next = self.free;
        self.free = at;
        // Safe in any state: in a queue in order an entry is counted here.
        self.len = self.len.saturating_sub(1);
        self.low = cell.entry.minute();
        Some(cell.entry)
    }

    fn clear(&mut self) {
        // as `new` has them; it cannot be called here, since the cells are lent and would have to be moved out
        self.heads.clear();
        self.free = NONE;
        self.fresh = 0;
        self.len = 0;
        self.low = u32::MAX;
    }

    fn held(&self) -> usize {
        self.len
    }

    fn capacity(&self) -> usize {
        self.cells.len()
    }
}
