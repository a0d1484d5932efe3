//! Origins followed back in a row.

ghost use Rattle.std.specs.Prelude.{◌≡◌, ◌+◌, ◌<◌, ◌≤◌, length, MatchBool, MatchResult};
ghost use Rattle.timetable.specs.Table.{stations};
ghost use Rattle.timetable.specs.Labels.{Gives};
ghost use Rattle.answers.specs.Rowwise.{row_head, row_entry};
ghost use Rattle.answers.specs.Walks.{Stands, opened};

use crate::giving::{Stop, gives};
use crate::rows::{LabelRows, origin_of};
use refusals::Refusal;
use timetable::{Means, Timetable};

/// The origins in one row, which lead back from the target.
#[derive(Drop)]
pub struct Origins<'a, T: Timetable> {
    pub timetable: &'a T,
    pub rows: LabelRows<'a>,
    pub row: usize,
    ghost stands: { Stands (T.Means.meaning timetable.now) rows.view rows.memory.now row rows.view.target },
}

impl<T: Timetable> Origins<'_, T> {
    ghost use Rattle.std.specs.Prelude.{◌≡◌, ◌+◌, ◌<◌, ◌≤◌, List, length, MatchBool, MatchResult};
    ghost use Rattle.refusals.specs.declared.refusal.Refusal.TheVariants.{ForeignRows};
    ghost use Rattle.journeys.specs.Search.{Entry};
    ghost use Rattle.journeys.specs.Trace.{legs_of};
    ghost use Rattle.answers.specs.Chains.{RowChain};
    ghost use Rattle.questions.specs.Steps.{StepIs, NoChain};

    /// Whether a label is that of the row's first ride, as its departure and connection say.
    fn is_first(&self, label: Stop) -> bool
        ensures { MatchBool result ((label.place ≡ stations (T.Means.meaning self.now.timetable.now) + (row_head self.now.rows.view self.now.rows.memory.now self.now.row).origin) × (label.minute ≡ (row_head self.now.rows.view self.now.rows.memory.now self.now.row).minute)) (label.place ≡ stations (T.Means.meaning self.now.timetable.now) + (row_head self.now.rows.view self.now.rows.memory.now self.now.row).origin → label.minute ≡ (row_head self.now.rows.view self.now.rows.memory.now self.now.row).minute → ⊥) }
    {
        let first = self.rows.head(self.row);
        label
            == Stop {
                place: usize::from(self.timetable.stations()) + first.origin as usize,
                minute: first.minute,
            }
    }

    /// Whether the row's entry of a place gives a label.
    fn gives(&self, place: usize, label: Stop) -> bool
        requires { label.minute ≤ 400000000 }
        ensures { MatchBool result ((1 + place < self.now.rows.view.width) × Gives (T.Means.meaning self.now.timetable.now) place (row_entry self.now.rows.view self.now.rows.memory.now self.now.row place).minute label.place label.minute) (1 + place < self.now.rows.view.width → Gives (T.Means.meaning self.now.timetable.now) place (row_entry self.now.rows.view self.now.rows.memory.now self.now.row place).minute label.place label.minute → ⊥) }
    {
        if self.rows.view.width - 1 <= place {
            return false;
        }
        let minute = self.rows.entry(self.row, place).minute;
        gives(self.timetable, Stop { place, minute }, label)
    }

    /// The place that gives the entry of a place; none where this is the row's first ride. Refused where it is neither given
    /// by its origin nor the first ride.
    fn step_back(&self, place: usize) -> Result<Option<usize>, Refusal>
        requires { Stands (T.Means.meaning self.now.timetable.now) self.now.rows.view self.now.rows.memory.now self.now.row place }
        ensures { MatchResult result (λ before. StepIs (T.Means.meaning self.now.timetable.now) self.now.rows.memory.now self.now.row place before) (λ e. NoChain (T.Means.meaning self.now.timetable.now) self.now.rows.memory.now self.now.row place × (e ≡ ForeignRows self.now.row)) }
    {
        let entry = self.rows.entry(self.row, place);
        let label = Stop {
            place,
            minute: entry.minute,
        };
        match origin_of(entry) {
            None if self.is_first(label) => Ok(None),
            Some(origin) if self.gives(origin, label) => Ok(Some(origin)),
            _ => Err(Refusal::ForeignRows(self.row)),
        }
    }

    /// How many legs the entry of a place opens: one where it is a connection, and no connection was taken just before it.
    fn opens(&self, aboard: bool, place: usize) -> usize
        ensures { result ≡ opened (T.Means.meaning self.now.timetable.now) aboard place }
    {
        usize::from(!aboard && usize::from(self.timetable.stations()) <= place)
    }

    /// How many legs the origins tell. Refused where they do not lead to the row's departure and connection.
    // `write_legs` steps along the same origins. No iterator does both: this one checks each step and may be refused, that
    // one knows that it is not.
    pub fn count_legs(&self) -> Result<usize, Refusal>
        ensures { MatchResult result (λ k. ((es : List Entry) × RowChain (T.Means.meaning self.now.timetable.now) self.now.rows.memory.now self.now.row self.now.rows.view.target es × (k ≡ length (legs_of (T.Means.meaning self.now.timetable.now) es)))) (λ e. NoChain (T.Means.meaning self.now.timetable.now) self.now.rows.memory.now self.now.row self.now.rows.view.target × (e ≡ ForeignRows self.now.row)) }
    {
        let stations = usize::from(self.timetable.stations());
        let mut place = self.rows.view.target;
        let mut aboard = false;
        let mut legs = 0;
        'walk: loop {
            legs += self.opens(aboard, place);
            aboard = stations <= place;
            let Some(before) = self.step_back(place)? else {
                return Ok(legs);
            };
            place = before;
        }
    }
}
