//! What is reported of trains.

ghost use Rattle.std.specs.Prelude.{◌≡◌, Some, None};
ghost use Rattle.timetable.specs.declared.report.Report.TheVariants.{Cancelled, Late};
ghost use Rattle.notices.specs.Layer.{ReportAnswered, LiftAnswered};
ghost use Rattle.planner.specs.Laws.{ReportLaw, LiftLaw};
ghost use Rattle.planner.specs.Reporting.{EndsSearch};

use crate::planner::Planner;
use refusals::Refusal;
use timetable::{Timetable, Train};

impl<T: Timetable> Planner<T> {
    // The calls below pass a refusal on by `?` and then end the search. With a closure under `map` that ends it, what the call
    // leaves of the planner stays open (`returns`), and a helper that takes the layer's answer would be no shorter.

    /// Ends the standing search: the timetable that its rows are of is no longer in force.
    fn end_search(&mut self)
        ensures notices { self.new.notices ≡ self.old.notices }
        ensures standing { self.new.standing ≡ None }
    {
        self.standing = None;
    }

    /// Reports that a train does not run. Refused, and then nothing is changed: `NoTrain`, `FullNotices`.
    pub fn cancel(&mut self, train: Train) -> Result<(), Refusal>
        ensures below { self.new.notices.below ≡ self.old.notices.below }
        ensures answer { ReportAnswered (T.Means.meaning self.old.notices.below).trains self.old.notices self.new.notices train.0 (Some Cancelled) result }
        ensures search { EndsSearch self.old self.new result }
        ensures law { ReportLaw T.Means.meaning train.0 (Some Cancelled) self.old result self.new }
    {
        self.notices.cancel(train)?;
        self.end_search();
        Ok(())
    }

    /// Reports that a train is late by 1 to 1,440 minutes. Refused, and then nothing is changed: `NoTrain`, `DelayLimit`,
    /// `FullNotices`.
    pub fn late(&mut self, train: Train, delay: u16) -> Result<(), Refusal>
        ensures below { self.new.notices.below ≡ self.old.notices.below }
        ensures answer { ReportAnswered (T.Means.meaning self.old.notices.below).trains self.old.notices self.new.notices train.0 (Some (Late delay)) result }
        ensures search { EndsSearch self.old self.new result }
        ensures law { ReportLaw T.Means.meaning train.0 (Some (Late delay)) self.old result self.new }
    {
        self.notices.late(train, delay)?;
        self.end_search();
        Ok(())
    }

    /// Takes back what is reported of a train. Refused, and then nothing is changed: `NoTrain`, `NothingToLift`.
    pub fn lift(&mut self, train: Train) -> Result<(), Refusal>
        ensures below { self.new.notices.below ≡ self.old.notices.below }
        ensures answer { LiftAnswered (T.Means.meaning self.old.notices.below).trains self.old.notices self.new.notices train.0 result }
        ensures search { EndsSearch self.old self.new result }
        ensures law { LiftLaw T.Means.meaning train.0 self.old result self.new }
    {
        self.notices.lift(train)?;
        self.end_search();
        Ok(())
    }
}
