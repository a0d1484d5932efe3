//! The search over the timetable in force.

ghost use Rattle.std.specs.Prelude.{◌≡◌, min, Some, MatchResult};
ghost use Rattle.search.specs.Answer.{SearchAnswered, Returned};
ghost use Rattle.planner.specs.InForce.{in_force};
ghost use Rattle.planner.specs.Laws.{SearchLaw};

use crate::planner::Planner;
use entries::{BoardEntry, LabelEntry};
use questions::Standing;
use queue::Queue;
use refusals::Refusal;
use search::{Found, Limits, search_within};
use timetable::{Label, Station, Timetable};

// Board and label queue are two parameters: each has its own clause, and `search` of the crate below takes them one by one.
impl<T: Timetable> Planner<T> {
    /// Searches from a source, and writes the rows to the label memory. From then on this search stands.
    ///
    /// Refused, and then nothing is changed: `NoSource`, `SmallBoard`, `SmallLabelQueue`, `SmallLabelMemory`.
    pub fn search<B: Queue<BoardEntry>, L: Queue<LabelEntry>>(
        &mut self,
        source: Station,
        board: &mut B,
        labels: &mut L,
        memory: &mut [Label],
    ) -> Result<Found, Refusal>
        ensures notices { self.new.notices ≡ self.old.notices }
        ensures answer { SearchAnswered (in_force T.Means.meaning self.old) source.0 (B.Queue.room board.old) (L.Queue.room labels.old) memory.old result memory.new }
        ensures standing { MatchResult result (λ f. self.new.standing ≡ Some (record { source = source; rows = f.departures })) (λ _. self.new ≡ self.old) }
        ensures board { Returned B.Queue result board.old board.new }
        ensures labels { Returned L.Queue result labels.old labels.new }
        ensures law { SearchLaw T.Means.meaning source.0 (B.Queue.room board.old) (L.Queue.room labels.old) self.old memory.old result self.new memory.new }
    {
        self.search_within(source, Limits::of(board, labels), board, labels, memory)
    }

    /// The same, with no more entries of each queue than the limits say: its capacity counts up to its limit.
    pub fn search_within<B: Queue<BoardEntry>, L: Queue<LabelEntry>>(
        &mut self,
        source: Station,
        limits: Limits,
        board: &mut B,
        labels: &mut L,
        memory: &mut [Label],
    ) -> Result<Found, Refusal>
        ensures notices { self.new.notices ≡ self.old.notices }
        ensures answer { SearchAnswered (in_force T.Means.meaning self.old) source.0 (min limits.board (B.Queue.room board.old)) (min limits.labels (L.Queue.room labels.old)) memory.old result memory.new }
        ensures standing { MatchResult result (λ f. self.new.standing ≡ Some (record { source = source; rows = f.departures })) (λ _. self.new ≡ self.old) }
        ensures board { Returned B.Queue result board.old board.new }
        ensures labels { Returned L.Queue result labels.old labels.new }
        ensures law { SearchLaw T.Means.meaning source.0 (min limits.board (B.Queue.room board.old)) (min limits.labels (L.Queue.room labels.old)) self.old memory.old result self.new memory.new }
    {
        let found = search_within(&self.notices, source, limits, board, labels, memory)?;
        let standing = Standing {
            source,
            rows: found.departures,
        };
        self.standing = Some(standing);
        Ok(found)
    }
}
