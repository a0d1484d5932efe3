//! The row of the pair that arrive answers.

ghost use Rattle.std.specs.Prelude.{◌≡◌, ◌*◌};

use crate::asking::Question;
use crate::choosing::Hit;
use crate::rows::LabelRows;
use refusals::Refusal;
use timetable::{Means, Timetable};

/// What was looked at, and the row that was found.
#[derive(Clone, Copy)]
pub struct Found<'m> {
    pub rows: LabelRows<'m>,
    pub hit: Hit,
}

impl Found<'_> {
    /// By how many minutes the pair is moved on.
    pub fn later(&self) -> u32
        ensures { result ≡ self.now.hit.periods * self.now.rows.view.period }
    {
        self.hit.periods * self.rows.view.period
    }
}

impl<'a, T: Timetable> Question<'a, T> {
    ghost use Rattle.questions.specs.Finding.{Sought};

    /// Checks all that is asked, and finds the row of the first unbeaten pair that departs at the minute or later.
    pub fn find(&self, minute: u32) -> Result<Found<'a>, Refusal>
        ensures { Sought (T.Means.meaning self.now.timetable.now) self.now.standing.source.0 self.now.standing.rows self.now.memory.now self.now.target.0 minute result }
    {
        let rows = self.ask(minute)?;
        rows.check()?;
        let hit = rows
            .first_pair(minute)
            .ok_or(Refusal::Unreachable(self.target.0))?;
        Ok(Found { rows, hit })
    }
}
