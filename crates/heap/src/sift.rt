//! Steps in a binary heap that fills a slice: the children of the place p are 2 p + 1 and 2 p + 2. The hole moves, so
//! that each entry on the way is written once. It moves along a path of the tree, so the loops go by that arithmetic
//! and not over the slice.

ghost use Rattle.std.specs.Prelude.{◌≡◌, ◌+◌, ◌*◌, ◌<◌, length, slice_set};
ghost use Rattle.queue.specs.Order.{sorted};
ghost use Rattle.heap.specs.Heaped.{Child, Heaped, Rising, Sinking, Best};

use queue::Entry;

/// Fills the hole at `at` with e, or moves the hole up to where e fits.
pub(crate) fn rise<E: Entry>(cells: &mut [E], mut at: usize, e: E)
    requires { at < length cells.old }
    ensures bag { sorted E.Entry.ahead cells.new ≡ sorted E.Entry.ahead (slice_set cells.old at e) }
    ensures heaped { Rising E.Entry.ahead (slice_set cells.old at e) at → Heaped E.Entry.ahead cells.new }
{
    while 0 < at {
        let up = (at - 1) / 2;
        let x = cells[up];
        if !e.is_ahead(&x) {
            break;
        }
        cells[at] = x;
        at = up;
    }
    cells[at] = e;
}

/// Fills the hole at `at` with e, or moves the hole down to where e fits; does nothing past the end.
pub(crate) fn sink<E: Entry>(cells: &mut [E], mut at: usize, e: E)
    ensures bag { sorted E.Entry.ahead cells.new ≡ sorted E.Entry.ahead (slice_set cells.old at e) }
    ensures heaped { Sinking E.Entry.ahead (slice_set cells.old at e) at → Heaped E.Entry.ahead cells.new }
{
    if cells.len() <= at {
        return;
    }
    while at < cells.len() / 2 {
        let child = first_child(cells, at);
        let x = cells[child];
        if !x.is_ahead(&e) {
            break;
        }
        cells[at] = x;
        at = child;
    }
    cells[at] = e;
}

/// The child of `at` that is not behind the other.
fn first_child<E: Entry>(cells: &[E], at: usize) -> usize
    requires { at * 2 + 1 < length cells.now }
    ensures child { Child at result × (result < length cells.now) }
    ensures best { Best E.Entry.ahead cells.now at result }
{
    let left = at * 2 + 1;
    let right = left + 1;
    match cells.get(right) {
        Some(x) if x.is_ahead(&cells[left]) => right,
        _ => left,
    }
}
