//! Opening the rows: every first departure is taken from the board, in order.

ghost use Rattle.std.specs.Prelude.{◌≡◌};
ghost use Rattle.turns.specs.Puts.{Ready};
ghost use Rattle.turns.specs.Running.{queue_needed, Turn};
ghost use Rattle.turns.specs.Opening.{Opening};
ghost use Rattle.search.specs.Answer.{Emptied};

use crate::lead::place_of;
use crate::plan::Plan;
use crate::puts::add;
use entries::{BoardEntry, LabelEntry, Place, Rank};
use queue::Queue;
use timetable::{Label, Means, Timetable};

impl<T: Timetable> Plan<'_, T> {
    /// Gives each first departure its row, and puts its ride into the label queue.
    pub(crate) fn open<B: Queue<BoardEntry>, L: Queue<LabelEntry>>(
        &self,
        board: &mut B,
        labels: &mut L,
        memory: &mut [Label],
    )
        requires board { B.Queue.ordered board.old }
        requires labels { Ready L.Queue (queue_needed (T.Means.meaning self.now.t.now) self.now.source.0) labels.old }
        requires opening { Opening (T.Means.meaning self.now.t.now) self.now.source.0 memory.old memory.old (B.Queue.bag board.old) (L.Queue.bag labels.old) 0 }
        ensures board { Emptied B.Queue board.old board.new }
        ensures labels { L.Queue.ordered labels.new }
        ensures room { L.Queue.room labels.new ≡ L.Queue.room labels.old }
        ensures opened { Turn (T.Means.meaning self.now.t.now) self.now.source.0 (L.Queue.room labels.new) memory.old memory.new (L.Queue.bag labels.new) 0 }
    {
        // The loop ends where the board is empty. A `for` over the ranks would take from it by a `let else` that never fails.
        let mut rank: u32 = 0;
        while let Some(first) = board.take() {
            self.open_row(memory, Rank(rank), first);
            add(
                labels,
                LabelEntry {
                    minute: first.minute,
                    rank: Rank(rank),
                    place: place_of(self.t, first.connection),
                    // The mark of the label memory: an `Option<Place>` would widen each lent cell.
                    origin: Place(Label::NONE),
                },
            );
            rank += 1;
        }
    }
}
