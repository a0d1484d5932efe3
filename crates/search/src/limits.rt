ghost use Rattle.std.specs.Prelude.{◌≡◌};

use entries::{BoardEntry, LabelEntry};
use queue::Queue;

/// How many entries of each queue a search may count on, at most.
#[derive(Clone, Copy, PartialEq, Eq, Debug)]
pub struct Limits {
    pub board: usize,
    pub labels: usize,
}

impl Limits {
    /// As many as these two queues can hold.
    pub fn of<B: Queue<BoardEntry>, L: Queue<LabelEntry>>(board: &B, labels: &L) -> Limits
        ensures board { result.board ≡ B.Queue.room board.now }
        ensures labels { result.labels ≡ L.Queue.room labels.now }
    {
        Limits {
            board: board.capacity(),
            labels: labels.capacity(),
        }
    }
}
