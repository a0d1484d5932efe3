ghost use Rattle.std.specs.Ordering.{nat_cmp, on, flip_args, then_cmp};
ghost use Rattle.entries.specs.Kinds.{label_ahead};
ghost use Rattle.queue.proofs.Ranking.{ranking, sound_of};

use crate::numbers::{Place, Rank};
use queue::Entry;
use std::cmp::Reverse;

/// A label to be looked at: the minute at which a rank comes to a place, and the place that it comes from. The earlier
/// minute first; within a minute the higher rank, then the lower place, then the higher origin.
#[derive(Clone, Copy, PartialEq, Eq, Default, Debug)]
pub struct LabelEntry {
    pub minute: u32,
    pub rank: Rank,
    pub place: Place,
    pub origin: Place,
}

impl Entry for LabelEntry {
    ghost ahead = { label_ahead };

    ghost minute_of = { λ x. x.minute };

    ghost sound = { sound_of (then_cmp (on (λ x. x.minute) nat_cmp) (then_cmp (flip_args (on (λ x. x.rank.0) nat_cmp)) (then_cmp (on (λ x. x.place.0) nat_cmp) (flip_args (on (λ x. x.origin.0) nat_cmp))))) (Prim.search ranking depth 9) (Prim.search ranking depth 9) (Prim.search ranking depth 9) (Prim.search ranking depth 9) };

    fn minute(&self) -> u32 {
        self.minute
    }

    // The order falls in rank and origin, so it is not the derived one.
    fn is_ahead(&self, other: &LabelEntry) -> bool {
        let key = |e: &LabelEntry| (e.minute, Reverse(e.rank), e.place, Reverse(e.origin));
        key(self) < key(other)
    }
}
