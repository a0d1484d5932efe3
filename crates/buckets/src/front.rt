//! Which bucket to take from.

ghost use Rattle.std.specs.Prelude.{◌≡◌, ◌<◌, ◌≤◌, true, false, length, MatchBool, MatchOption, slice_index, slice_index_or};
ghost use Rattle.buckets.specs.Bitmap.{occupied, Clear};
ghost use Rattle.buckets.specs.Chains.{entries};
ghost use Rattle.buckets.specs.InBuckets.{Marked, Leads, Lodged};
ghost use Rattle.buckets.specs.Nearest.{Firsts, Far, Near};

use crate::chain::{Cell, entry_at};
use crate::heads::Heads;
use queue::Entry;

/// The first entries of the buckets.
// That the heads fit the cells is a premise of the promises and no invariant: `take` has no premise, so a `Front` is made of
// any cells.
#[derive(Drop)]
pub(crate) struct Front<'a, E: Entry> {
    pub(crate) cells: &'a [Cell<E>],
    pub(crate) heads: &'a Heads,
}

impl<E: Entry> Front<'_, E> {
    /// The first entry of the bucket b.
    fn first(&self, b: u8) -> Option<&E>
        ensures { MatchOption result (length self.now.cells.now ≤ slice_index self.now.heads.now.first b) (λ x. (slice_index self.now.heads.now.first b < length self.now.cells.now) × ((d : E) → slice_index_or (entries self.now.cells.now) (slice_index self.now.heads.now.first b) d ≡ x.now)) }
    {
        entry_at(self.cells, self.heads.first(b))
    }

    /// Whether the first entry of the bucket b is ahead of that of the bucket `top`.
    fn leads(&self, b: u8, top: u8) -> bool
        ensures { MatchBool result ((d : E) → E.Entry.ahead (slice_index_or (entries self.now.cells.now) (slice_index self.now.heads.now.first b) d) (slice_index_or (entries self.now.cells.now) (slice_index self.now.heads.now.first top) d) ≡ true) ((d : E) → slice_index self.now.heads.now.first b < length self.now.cells.now → slice_index self.now.heads.now.first top < length self.now.cells.now → E.Entry.ahead (slice_index_or (entries self.now.cells.now) (slice_index self.now.heads.now.first b) d) (slice_index_or (entries self.now.cells.now) (slice_index self.now.heads.now.first top) d) ≡ false) }
    {
        match (self.first(b), self.first(top)) {
            (Some(x), Some(y)) => x.is_ahead(y),
            _ => false,
        }
    }

    /// The bucket whose first entry is ahead of the others'.
    fn best(&self) -> Option<u8>
        ensures { Marked self.now.heads.now.bits self.now.heads.now.first (length self.now.cells.now) → MatchOption result (Clear (occupied self.now.heads.now.bits) 0 256) (λ b. Leads E.Entry.ahead self.now.cells.now self.now.heads.now.bits self.now.heads.now.first b) }
    {
        let mut filled = self.heads.filled(0);
        let mut best = filled.next()?;
        for b in filled {
            if self.leads(b, best) {
                best = b;
            }
        }
        Some(best)
    }

    /// Whether the first entry of the bucket b is before the minute `bound`.
    fn is_before(&self, b: u8, bound: u64) -> bool
        ensures { MatchBool result ((d : E) → E.Entry.minute_of (slice_index_or (entries self.now.cells.now) (slice_index self.now.heads.now.first b) d) < bound) ((d : E) → slice_index self.now.heads.now.first b < length self.now.cells.now → bound ≤ E.Entry.minute_of (slice_index_or (entries self.now.cells.now) (slice_index self.now.heads.now.first b) d)) }
    {
        self.first(b).is_some_and(|x| u64::from(x.minute()) < bound)
    }

    /// The first bucket from `from` up to `to` whose first entry is before the minute `bound`.
    fn within(&self, from: usize, to: usize, bound: u64) -> Option<u8>
        ensures { Marked self.now.heads.now.bits self.now.heads.now.first (length self.now.cells.now) → MatchOption result (to ≤ 256 → Far E.Entry.minute_of self.now.cells.now self.now.heads.now.bits self.now.heads.now.first bound from to) (λ b. Near E.Entry.minute_of self.now.cells.now self.now.heads.now.bits self.now.heads.now.first bound from to b) }
    {
        for b in self.heads.filled(from) {
            if to <= usize::from(b) {
                return None;
            }
            if self.is_before(b, bound) {
                return Some(b);
            }
        }
        None
    }

    /// The bucket whose first entry is ahead of the others', where no entry is before the minute `low`: of the entries
    /// in the 256 minutes from `low` on the first is in the first bucket, from that of `low` on and around, which has
    /// one of them in front. Only where there is none, all buckets are compared.
    pub(crate) fn nearest(&self, low: u32) -> Option<u8>
        ensures { Marked self.now.heads.now.bits self.now.heads.now.first (length self.now.cells.now) → Firsts E.Entry.minute_of self.now.cells.now self.now.heads.now.bits self.now.heads.now.first (Lodged E.Entry.minute_of low) → MatchOption result (Clear (occupied self.now.heads.now.bits) 0 256) (λ b. Leads E.Entry.ahead self.now.cells.now self.now.heads.now.bits self.now.heads.now.first b) }
    {
        // No `or_else`: its closures would have to repeat the promises of what they call.
        let start = (low % 256) as usize;
        let bound = u64::from(low) + 256;
        if let Some(b) = self.within(start, 256, bound) {
            return Some(b);
        }
        if let Some(b) = self.within(0, start, bound) {
            return Some(b);
        }
        self.best()
    }
}
