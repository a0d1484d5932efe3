//! Rows that no search wrote.

ghost use Rattle.std.specs.Prelude.{◌≡◌, ℕ, ◌<◌, MatchBool, MatchOption, MatchResult};
ghost use Rattle.refusals.specs.declared.refusal.Refusal.TheVariants.{ForeignRows};
ghost use Rattle.answers.specs.Rowwise.{ForeignIn};
ghost use Rattle.questions.specs.Judging.{judged, FirstForeignIn};

use crate::rows::LabelRows;
use refusals::Refusal;
use timetable::Label;

/// What the target's entry of a row is: blank, an arrival, or a minute that no search wrote.
// The three cases stay an enum, since one `match` with guards judges an entry.
#[derive(Clone, Copy, PartialEq, Eq)]
pub enum Judged {
    Blank,
    Arrival,
    Foreign,
}

/// Judges the minute of the target's entry, in a row that departs at `departure`.
fn judge(departure: u32, minute: u32) -> Judged
    ensures { result ≡ judged departure minute }
{
    match minute {
        Label::NONE => Judged::Blank,
        n if departure < n && n <= 400_000_000 => Judged::Arrival,
        _ => Judged::Foreign,
    }
}

impl LabelRows<'_> {
    /// Whether no search wrote the row.
    fn is_foreign(&self, row: usize) -> bool
        requires { row < self.now.view.rows }
        ensures { MatchBool result (ForeignIn self.now.view self.now.memory.now row) (ForeignIn self.now.view self.now.memory.now row → ⊥) }
    {
        let departure = self.departure(row);
        self.view.period <= departure
            || (0 < row && departure < self.departure(row - 1))
            || judge(departure, self.arrival(row)) == Judged::Foreign
    }

    /// The first row that no search wrote.
    fn first_foreign(&self) -> Option<usize>
        ensures { MatchOption result ((i : ℕ) → i < self.now.view.rows → ForeignIn self.now.view self.now.memory.now i → ⊥) (λ i. FirstForeignIn self.now.view self.now.memory.now i) }
    {
        (0..self.view.rows).find(|&row| self.is_foreign(row))
    }

    /// Whether a search may have written the rows; else the first row that none wrote.
    pub fn check(&self) -> Result<(), Refusal>
        ensures { MatchResult result (λ _. (i : ℕ) → i < self.now.view.rows → ForeignIn self.now.view self.now.memory.now i → ⊥) (λ e. (i : ℕ) × FirstForeignIn self.now.view self.now.memory.now i × (e ≡ ForeignRows i)) }
    {
        self.first_foreign()
            .map_or(Ok(()), |row| Err(Refusal::ForeignRows(row)))
    }
}
