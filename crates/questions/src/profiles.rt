//! Which departures are worth taking?

ghost use Rattle.std.specs.Prelude.{◌≡◌, ◌<◌, ◌≤◌, List, ◌++◌, length, drop};
ghost use Rattle.timetable.specs.declared.pair.Pair.{Pair as PairOf};
ghost use Rattle.timetable.specs.Labels.{ranks};
ghost use Rattle.timetable.specs.Rows.{Rows};
ghost use Rattle.answers.specs.Promises.{Profiled};
ghost use Rattle.answers.specs.Rowwise.{Listed, row_pair};
ghost use Rattle.answers.specs.Subject.{ProfileTold};

use crate::asking::Question;
use crate::rows::LabelRows;
use crate::standing::Standing;
use refusals::{Refusal, enough};
use timetable::{Label, Means, Pair, Station, Timetable};

impl LabelRows<'_> {
    /// How many rows are chosen.
    fn count_pairs(&self) -> usize
        ensures { (ps : List PairOf) × Listed self.now.view self.now.memory.now self.now.view.rows ps × (result ≡ length ps) }
    {
        (0..self.view.rows)
            .filter(|&row| self.is_chosen(row))
            .count()
    }

    /// A row's departure with its arrival.
    fn pair(&self, row: usize) -> Pair
        requires { row < self.now.view.rows }
        ensures { result ≡ row_pair self.now.view self.now.memory.now row }
    {
        Pair {
            departure: self.departure(row),
            arrival: self.arrival(row),
        }
    }

    /// Writes the pairs of the chosen rows.
    fn write_pairs(&self, out: &mut [Pair])
        requires { (ps : List PairOf) × Listed self.now.view self.now.memory.now self.now.view.rows ps × (length ps ≤ length out.old) }
        ensures { (ps : List PairOf) × Listed self.now.view self.now.memory.now self.now.view.rows ps × (out.new ≡ ps ++ drop (length ps) out.old) }
    {
        // A proof knows nothing of what is written through `out.iter_mut().zip(chosen)`, so the places are counted.
        let chosen = (0..self.view.rows).filter(|&row| self.is_chosen(row));
        for (place, row) in chosen.enumerate() {
            out[place] = self.pair(row);
        }
    }
}

impl<T: Timetable> Question<'_, T> {
    /// Checks all that is asked, and writes the profile if there is room for it.
    fn profile(&self, out: &mut [Pair]) -> Result<usize, Refusal>
        ensures { Profiled (T.Means.meaning self.now.timetable.now) self.now.standing.source.0 self.now.standing.rows self.now.memory.now self.now.target.0 out.old result out.new }
    {
        let rows = self.ask_profile()?;
        rows.check()?;
        let pairs = rows.count_pairs();
        if pairs == 0 {
            return Err(Refusal::Unreachable(self.target.0));
        }
        enough(out.len(), pairs, Refusal::ShortAnswer(pairs))?;
        rows.write_pairs(out);
        Ok(pairs)
    }
}

/// Writes the unbeaten pairs that depart in the period, rising, and answers their number; later entries stay.
/// Refused: `NoTarget`, `TargetIsSource`, `ShortRows`, `ForeignRows`, `Unreachable`, `ShortAnswer`, in this order; the output
/// is then as it was. It compares every row with every other, at most, twice.
pub fn profile<T: Timetable>(
    t: &T,
    standing: Standing,
    memory: &[Label],
    target: Station,
    out: &mut [Pair],
) -> Result<usize, Refusal>
    ensures answer { Profiled (T.Means.meaning t.now) standing.source.0 standing.rows memory.now target.0 out.old result out.new }
    ensures searched { Rows (T.Means.meaning t.now) standing.source.0 memory.now → standing.rows ≡ ranks (T.Means.meaning t.now) standing.source.0 → ProfileTold (T.Means.meaning t.now) standing.source.0 memory.now target.0 out.old result out.new }
{
    let question = Question {
        timetable: t,
        standing,
        memory,
        target,
    };
    question.profile(out)
}
