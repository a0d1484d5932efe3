//! When does one arrive?

ghost use Rattle.std.specs.Prelude.{◌≡◌};
ghost use Rattle.timetable.specs.Labels.{ranks};
ghost use Rattle.timetable.specs.Rows.{Rows};
ghost use Rattle.answers.specs.Promises.{Arrived};
ghost use Rattle.answers.specs.Subject.{ArriveTold};

use crate::asking::Question;
use crate::standing::Standing;
use refusals::Refusal;
use timetable::{Label, Means, Pair, Station, Timetable};

/// The first unbeaten pair that departs at the minute or later, which may be in the next period.
/// Refused: `NoTarget`, `TargetIsSource`, `MinuteLimit`, `ShortRows`, `ForeignRows`, `Unreachable`, in this order.
/// It compares every row with every other, at most.
pub fn arrive<T: Timetable>(
    t: &T,
    standing: Standing,
    memory: &[Label],
    target: Station,
    minute: u32,
) -> Result<Pair, Refusal>
    ensures answer { Arrived (T.Means.meaning t.now) standing.source.0 standing.rows memory.now target.0 minute result }
    ensures searched { Rows (T.Means.meaning t.now) standing.source.0 memory.now → standing.rows ≡ ranks (T.Means.meaning t.now) standing.source.0 → ArriveTold (T.Means.meaning t.now) standing.source.0 memory.now target.0 minute result }
{
    let question = Question {
        timetable: t,
        standing,
        memory,
        target,
    };
    let found = question.find(minute)?;
    let departure = found.rows.departure(found.hit.row);
    let arrival = found.rows.arrival(found.hit.row);
    let later = found.later();
    Ok(Pair {
        departure: departure + later,
        arrival: arrival + later,
    })
}
