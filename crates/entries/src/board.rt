ghost use Rattle.std.specs.Ordering.{nat_cmp, on, then_cmp};
ghost use Rattle.entries.specs.Kinds.{board_ahead};
ghost use Rattle.queue.proofs.Ranking.{ranking, sound_of};

use queue::Entry;
use timetable::ConnectionNo;

/// A departure on the board: the earlier minute first, then the lower connection.
#[derive(Clone, Copy, PartialEq, Eq, PartialOrd, Ord, Default, Debug)]
pub struct BoardEntry {
    pub minute: u32,
    pub connection: ConnectionNo,
}

impl Entry for BoardEntry {
    ghost ahead = { board_ahead };

    ghost minute_of = { λ x. x.minute };

    ghost sound = { sound_of (then_cmp (on (λ x. x.minute) nat_cmp) (on (λ x. x.connection.0) nat_cmp)) (Prim.search ranking) (Prim.search ranking) (Prim.search ranking) (Prim.search ranking) };

    fn minute(&self) -> u32 {
        self.minute
    }

    fn is_ahead(&self, other: &BoardEntry) -> bool {
        self < other
    }
}
