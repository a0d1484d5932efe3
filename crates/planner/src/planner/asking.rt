//! Questions to the standing search.

ghost use Rattle.std.specs.Prelude.{◌≡◌, Some, None, Err, MatchOption, MatchResult};
ghost use Rattle.refusals.specs.declared.refusal.Refusal.TheVariants.{NoSearch};
ghost use Rattle.answers.specs.Promises.{Arrived, Profiled, Journeyed};
ghost use Rattle.planner.specs.InForce.{in_force};
ghost use Rattle.planner.specs.Laws.{ArriveLaw, ProfileLaw, JourneyLaw};

use crate::planner::Planner;
use questions::{Standing, arrive, journey, profile};
use refusals::Refusal;
use timetable::{Label, Leg, Pair, Station, Timetable};

// The three questions differ in what they ask and promise, and each passes on to its own in two lines.
impl<T: Timetable> Planner<T> {
    /// The standing search. Refused: `NoSearch` where none stands.
    fn standing_search(&self) -> Result<Standing, Refusal>
        ensures { MatchResult result (λ x. self.now.standing ≡ Some x) (λ e. (self.now.standing ≡ None) × (e ≡ NoSearch)) }
    {
        self.standing.ok_or(Refusal::NoSearch)
    }

    /// The first unbeaten pair that departs at the minute or later, which may be in the next period.
    /// Refused: `NoSearch`, `NoTarget`, `TargetIsSource`, `MinuteLimit`, `ShortRows`, `ForeignRows`, `Unreachable`, in this
    /// order.
    pub fn arrive(&self, memory: &[Label], target: Station, minute: u32) -> Result<Pair, Refusal>
        ensures answer { MatchOption self.now.standing (result ≡ Err NoSearch) (λ x. Arrived (in_force T.Means.meaning self.now) x.source.0 x.rows memory.now target.0 minute result) }
        ensures law { ArriveLaw T.Means.meaning self.now memory.now target.0 minute result }
    {
        let standing = self.standing_search()?;
        arrive(&self.notices, standing, memory, target, minute)
    }

    /// Writes the unbeaten pairs that depart in the period, rising, and answers their number; later entries stay.
    /// Refused, and then the output is as it was: `NoSearch`, `NoTarget`, `TargetIsSource`, `ShortRows`, `ForeignRows`,
    /// `Unreachable`, `ShortAnswer`, in this order.
    pub fn profile(
        &self,
        memory: &[Label],
        target: Station,
        out: &mut [Pair],
    ) -> Result<usize, Refusal>
        ensures answer { MatchOption self.now.standing ((result ≡ Err NoSearch) × (out.new ≡ out.old)) (λ x. Profiled (in_force T.Means.meaning self.now) x.source.0 x.rows memory.now target.0 out.old result out.new) }
        ensures law { ProfileLaw T.Means.meaning self.now memory.now target.0 out.old result out.new }
    {
        let standing = self.standing_search()?;
        profile(&self.notices, standing, memory, target, out)
    }

    /// Writes the legs of an itinerary that has the pair that arrive answers, and answers their number; later entries stay.
    /// Refused, and then the output is as it was: as arrive, and `ShortAnswer` last.
    pub fn journey(
        &self,
        memory: &[Label],
        target: Station,
        minute: u32,
        out: &mut [Leg],
    ) -> Result<usize, Refusal>
        ensures answer { MatchOption self.now.standing ((result ≡ Err NoSearch) × (out.new ≡ out.old)) (λ x. Journeyed (in_force T.Means.meaning self.now) x.source.0 x.rows memory.now target.0 minute out.old result out.new) }
        ensures law { JourneyLaw T.Means.meaning self.now memory.now target.0 minute out.old result out.new }
    {
        let standing = self.standing_search()?;
        journey(&self.notices, standing, memory, target, minute, out)
    }
}
