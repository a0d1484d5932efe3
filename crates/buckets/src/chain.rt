//! Chains of cells in a slice, each in the order of its entries: an index past the slice ends a chain.

ghost use Rattle.std.specs.Prelude.{◌≡◌, ℕ, ◌<◌, ◌≤◌, true, false, List, length, MatchBool, MatchOption, slice_index_or};
ghost use Rattle.buckets.specs.Chains.{Chain, In, nexts, entries, Sought, Linked};

use queue::Entry;

/// The index that ends a chain: no slice has a cell there.
// An `Option<usize>` in its place would widen each of the caller's cells. Where a chain begins (`first` of the heads, `free`
// of the queue) is what a cell's `next` was or will be, so it is the same number.
pub(crate) const NONE: usize = usize::MAX;

/// A cell of the caller's memory: an entry, and the index of the cell that follows it in its chain.
#[derive(Clone, Copy)]
pub struct Cell<E: Entry> {
    pub entry: E,
    pub next: usize,
}

impl<E: Entry> Cell<E> {
    /// A cell that holds the entry, and that no other follows: what a slice of cells is filled with.
    pub fn new(entry: E) -> Cell<E>
        ensures entry { result.entry ≡ entry }
        ensures last { result.next ≡ 18446744073709551615 }
    {
        Cell { entry, next: NONE }
    }
}

/// The entry of the cell `at`, if there is one.
pub(crate) fn entry_at<E: Entry>(cells: &[Cell<E>], at: usize) -> Option<&E>
    ensures { MatchOption result (length cells.now ≤ at) (λ x. (at < length cells.now) × ((d : E) → slice_index_or (entries cells.now) at d ≡ x.now)) }
{
    cells.get(at).map(|cell| &cell.entry)
}

/// Whether the chain that begins at `at` begins with an entry that is ahead of e.
fn passes<E: Entry>(cells: &[Cell<E>], at: usize, e: &E) -> bool
    ensures { MatchBool result ((at < length cells.now) × ((d : E) → E.Entry.ahead (slice_index_or (entries cells.now) at d) e.now ≡ true)) ((d : E) → at < length cells.now → E.Entry.ahead (slice_index_or (entries cells.now) at d) e.now ≡ false) }
{
    entry_at(cells, at).is_some_and(|first| first.is_ahead(e))
}

/// The last cell of the chain from `head` on that e goes behind.
fn seek<E: Entry>(cells: &[Cell<E>], head: usize, e: &E) -> usize
    requires { head < length cells.now }
    ensures within { result < length cells.now }
    ensures sought { (is : List ℕ) → Chain (nexts cells.now) head is → length is ≤ length cells.now → ((d : E) → E.Entry.ahead (slice_index_or (entries cells.now) head d) e.now ≡ true) → Sought E.Entry.ahead (entries cells.now) is e.now result }
{
    // The chain is linked by index through lent cells, and these may hold anything: a loop follows it, for a bounded
    // number of steps.
    let mut at = head;
    for _step in 0..cells.len() {
        let next = cells[at].next;
        if !passes(cells, next, e) {
            break;
        }
        at = next;
    }
    at
}

/// Puts e into the cell `new` and that into the chain that begins at `head`; returns where that begins then.
pub(crate) fn link<E: Entry>(cells: &mut [Cell<E>], head: usize, new: usize, e: E) -> usize
    requires { new < length cells.old }
    ensures within { result < length cells.old }
    ensures linked { (is : List ℕ) → Chain (nexts cells.old) head is → (In new is → ⊥) → length is ≤ length cells.old → Linked E.Entry.ahead cells.old cells.new is new e result }
{
    if !passes(cells, head, &e) {
        cells[new] = Cell {
            entry: e,
            next: head,
        };
        return new;
    }
    let at = seek(cells, head, &e);
    cells[new] = Cell {
        entry: e,
        next: cells[at].next,
    };
    cells[at].next = new;
    head
}
