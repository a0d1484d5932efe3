//! The board: the first departures, in order.

ghost use Rattle.std.specs.Prelude.{◌≡◌, ◌&&◌, ◌==◌, []};
ghost use Rattle.timetable.specs.Table.{connections};
ghost use Rattle.timetable.specs.Labels.{ranks};
ghost use Rattle.turns.specs.Puts.{Ready, those};
ghost use Rattle.turns.specs.Opening.{departure_by, Boarded};

use crate::plan::Plan;
use crate::puts::add_some;
use entries::BoardEntry;
use queue::Queue;
use timetable::{Connection, ConnectionNo, Means, Station, Timetable, connection_at};

/// Whether a connection is a first departure from the source: it runs and starts there.
pub fn is_first(connection: Connection, source: Station) -> bool
    ensures { result ≡ (connection.runs && connection.start.0 == source.0) }
{
    connection.runs && connection.start == source
}

impl<T: Timetable> Plan<'_, T> {
    /// The departure of a connection, if it is a first departure.
    fn departure(&self, number: ConnectionNo) -> Option<BoardEntry>
        ensures { those result ≡ departure_by (T.Means.meaning self.now.t.now) self.now.source.0 number.0 }
    {
        // Asked once: over notices an answer costs a look at every slot.
        let connection = connection_at(self.t, number);
        is_first(connection, self.source).then_some(BoardEntry {
            minute: u32::from(connection.departure),
            connection: number,
        })
    }

    /// Puts every first departure on the board.
    pub(crate) fn fill<B: Queue<BoardEntry>>(&self, board: &mut B)
        requires ready { Ready B.Queue (ranks (T.Means.meaning self.now.t.now) self.now.source.0) board.old }
        requires none { B.Queue.bag board.old ≡ [] }
        ensures { let t = T.Means.meaning self.now.t.now in Boarded B.Queue t self.now.source.0 (connections t) board.old board.new }
    {
        // A timetable answers by number: there is no slice to go over.
        for c in 0..self.t.connections() {
            add_some(board, self.departure(ConnectionNo(c)));
        }
    }
}
