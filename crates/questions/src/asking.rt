//! What is asked, and the refusals that need no look at the rows.

ghost use Rattle.std.specs.Prelude.{◌≡◌, ◌<◌, length, Some, Option, MatchResult};
ghost use Rattle.refusals.specs.declared.refusal.Refusal.{Refusal as Told};
ghost use Rattle.timetable.specs.Table.{stations};
ghost use Rattle.answers.specs.Promises.{rows_refusal, target_refusal, asked, asked_profile};
ghost use Rattle.answers.specs.Rowwise.{view_of};
ghost use Rattle.questions.specs.Asking.{Looked};

use crate::rows::LabelRows;
use crate::standing::Standing;
use answers::View;
use refusals::{Refusal, enough};
use timetable::{Label, Means, Station, Timetable, places};

/// A station that is asked for, and the search that tells: its timetable, its rows and the memory that they are in.
// The public calls take these one by one, since they are the calls that the engine offers: `arrive(t, standing, memory, target,
// minute)` and so on.
#[derive_where(Clone, Copy)]
pub struct Question<'a, T> {
    pub timetable: &'a T,
    pub standing: Standing,
    pub memory: &'a [Label],
    pub target: Station,
}

impl<'a, T: Timetable> Question<'a, T> {
    /// Whether the target is a station, and another than the source.
    fn check_target(&self) -> Result<(), Refusal>
        ensures { MatchResult result (λ _. (self.now.target.0 < stations (T.Means.meaning self.now.timetable.now)) × ((rest : Option Told) → target_refusal (T.Means.meaning self.now.timetable.now) self.now.standing.source.0 self.now.target.0 rest ≡ rest)) (λ e. (rest : Option Told) → target_refusal (T.Means.meaning self.now.timetable.now) self.now.standing.source.0 self.now.target.0 rest ≡ Some e) }
    {
        if self.timetable.stations() <= self.target.0 {
            return Err(Refusal::NoTarget(self.target.0));
        }
        if self.target == self.standing.source {
            return Err(Refusal::TargetIsSource(self.target.0));
        }
        Ok(())
    }

    /// The rows, looked at for the target, if the memory is long enough to hold them.
    fn rows(&self) -> Result<LabelRows<'a>, Refusal>
        requires { self.now.target.0 < stations (T.Means.meaning self.now.timetable.now) }
        ensures { Looked (rows_refusal (T.Means.meaning self.now.timetable.now) self.now.standing.rows (length self.now.memory.now)) (view_of (T.Means.meaning self.now.timetable.now) self.now.standing.rows self.now.target.0) self.now.memory.now result }
    {
        let view = View {
            rows: self.standing.rows as usize,
            width: places(self.timetable) + 1,
            target: usize::from(self.target.0),
            period: u32::from(self.timetable.period()),
        };
        let needed = view.rows * view.width;
        enough(self.memory.len(), needed, Refusal::ShortRows(needed))?;
        Ok(LabelRows {
            view,
            memory: self.memory,
        })
    }

    /// The rows for arrive and journey, at a minute.
    pub fn ask(&self, minute: u32) -> Result<LabelRows<'a>, Refusal>
        ensures { Looked (asked (T.Means.meaning self.now.timetable.now) self.now.standing.source.0 self.now.standing.rows self.now.target.0 minute (length self.now.memory.now)) (view_of (T.Means.meaning self.now.timetable.now) self.now.standing.rows self.now.target.0) self.now.memory.now result }
    {
        self.check_target()?;
        if u32::from(self.timetable.period()) <= minute {
            return Err(Refusal::MinuteLimit(minute));
        }
        self.rows()
    }

    /// The rows for profile.
    pub fn ask_profile(&self) -> Result<LabelRows<'a>, Refusal>
        ensures { Looked (asked_profile (T.Means.meaning self.now.timetable.now) self.now.standing.source.0 self.now.standing.rows self.now.target.0 (length self.now.memory.now)) (view_of (T.Means.meaning self.now.timetable.now) self.now.standing.rows self.now.target.0) self.now.memory.now result }
    {
        self.check_target()?;
        self.rows()
    }
}
