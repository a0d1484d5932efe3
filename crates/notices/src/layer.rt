ghost use Rattle.std.specs.Prelude.{◌≡◌, ℕ, ◌<◌, ◌≤◌, Some, None, MatchResult};
ghost use Rattle.refusals.specs.declared.refusal.Refusal.TheVariants.{NoTrain};
ghost use Rattle.timetable.specs.declared.report.Report.TheVariants.{Cancelled, Late};
ghost use Rattle.timetable.specs.Noticed.{noticed, reported};
ghost use Rattle.notices.specs.Layer.{report_of, standing, ReportAnswered, LiftAnswered};
ghost use Rattle.timetable.proofs.Lawfulness.{noticed_lawful};

use crate::table::NoticeTable;
use refusals::Refusal;
use timetable::{Connection, ConnectionNo, Means, Report, Station, Timetable, Train};

/// A timetable over any timetable: a cancelled train's connections do not run, and a late train departs later.
#[derive(Drop)]
pub struct Notices<T> {
    below: T,
    table: NoticeTable,
}

impl<T: Timetable> Notices<T> {
    /// The timetable as it is, with no notice.
    pub fn new(below: T) -> Notices<T>
        ensures below { result.below ≡ below }
        ensures says { (z : ℕ) → report_of result z ≡ None }
        ensures none { standing result ≡ 0 }
    {
        Notices {
            below,
            table: NoticeTable::new(),
        }
    }

    /// What is reported of a train.
    pub fn says(&self, train: Train) -> Option<Report>
        ensures { result ≡ report_of self.now train.0 }
    {
        self.table.says(train)
    }

    /// Refused: `NoTrain` where there is no train of this number.
    fn known(&self, train: Train) -> Result<(), Refusal>
        ensures { MatchResult result (λ _. train.0 < (T.Means.meaning self.now.below).trains) (λ e. ((T.Means.meaning self.now.below).trains ≤ train.0) × (e ≡ NoTrain train.0)) }
    {
        if train.0 >= self.below.trains() {
            return Err(Refusal::NoTrain(train.0));
        }
        Ok(())
    }

    /// Enters a report.
    fn report(&mut self, train: Train, report: Report) -> Result<(), Refusal>
        ensures below { self.new.below ≡ self.old.below }
        ensures answer { ReportAnswered (T.Means.meaning self.old.below).trains self.old self.new train.0 (Some report) result }
    {
        self.known(train)?;
        match report {
            Report::Late(delay) if delay == 0 || delay > 1440 => Err(Refusal::DelayLimit(delay)),
            _ => self.table.enter(train, Some(report)),
        }
    }

    /// Reports that a train does not run. Refused, and then nothing is changed: `NoTrain`, `FullNotices`.
    pub fn cancel(&mut self, train: Train) -> Result<(), Refusal>
        ensures below { self.new.below ≡ self.old.below }
        ensures answer { ReportAnswered (T.Means.meaning self.old.below).trains self.old self.new train.0 (Some Cancelled) result }
    {
        self.report(train, Report::Cancelled)
    }

    /// Reports that a train is late by 1 to 1,440 minutes. Refused, and then nothing is changed: `NoTrain`; `DelayLimit`, any
    /// other delay; `FullNotices`.
    pub fn late(&mut self, train: Train, delay: u16) -> Result<(), Refusal>
        ensures below { self.new.below ≡ self.old.below }
        ensures answer { ReportAnswered (T.Means.meaning self.old.below).trains self.old self.new train.0 (Some (Late delay)) result }
    {
        self.report(train, Report::Late(delay))
    }

    /// Takes back what is reported of a train. Refused, and then nothing is changed: `NoTrain`, `NothingToLift`.
    pub fn lift(&mut self, train: Train) -> Result<(), Refusal>
        ensures below { self.new.below ≡ self.old.below }
        ensures answer { LiftAnswered (T.Means.meaning self.old.below).trains self.old self.new train.0 result }
    {
        self.known(train)?;
        self.table.lift(train)
    }
}

impl<T: Timetable> Means for Notices<T> {
    ghost meaning = { λ n. noticed (T.Means.meaning n.below) (report_of n) };

    ghost lawful = { λ x. noticed_lawful (T.Means.meaning x.below) (report_of x) (T.Means.lawful x.below) };
}

/// A connection as it is under a report, or under none.
fn changed(period: u16, c: Connection, report: Option<Report>) -> Connection
    requires { (0 < period) × ((period ≤ 10080) × (c.departure ≤ 10080)) }
    ensures { result ≡ reported period c report }
{
    match report {
        None => c,
        Some(Report::Cancelled) => Connection { runs: false, ..c },
        Some(Report::Late(d)) => Connection {
            // below the period, so `as` keeps the number
            departure: ((u32::from(c.departure) + u32::from(d)) % u32::from(period)) as u16,
            ..c
        },
    }
}

impl<T: Timetable> Timetable for Notices<T> {
    fn period(&self) -> u16 {
        self.below.period()
    }

    fn stations(&self) -> u16 {
        self.below.stations()
    }

    fn trains(&self) -> u16 {
        self.below.trains()
    }

    fn connections(&self) -> u16 {
        self.below.connections()
    }

    fn transfer(&self, station: Station) -> Result<u16, Refusal> {
        self.below.transfer(station)
    }

    fn connection(&self, number: ConnectionNo) -> Result<Connection, Refusal> {
        let c = self.below.connection(number)?;
        Ok(changed(self.below.period(), c, self.table.says(c.train)))
    }
}
