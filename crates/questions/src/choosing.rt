//! Which rows' pairs are unbeaten.

ghost use Rattle.std.specs.Prelude.{ℕ, ◌<◌, ◌≤◌, MatchBool, MatchOption};
ghost use Rattle.answers.specs.Rowwise.{Yields, ChosenRow, FirstFrom, NoneFrom, FirstPair};

use crate::rows::LabelRows;

/// The row of a pair, and by how many periods the pair is moved on.
#[derive(Clone, Copy)]
pub struct Hit {
    pub row: usize,
    pub periods: u32,
    ghost near: { periods ≤ 1 },
}

impl LabelRows<'_> {
    /// Whether row `other`, which reaches the target, leaves `row` its pair: a period later it arrives later, and so it
    /// does at once if it is higher; and if both depart together, it arrives no earlier.
    fn yields(&self, row: usize, other: usize) -> bool
        requires row { row < self.now.view.rows }
        requires other { other < self.now.view.rows }
        ensures { MatchBool result (Yields self.now.view self.now.memory.now row other) (Yields self.now.view self.now.memory.now row other → ⊥) }
    {
        let mine = self.arrival(row);
        let theirs = self.arrival(other);
        if self.view.period <= mine && theirs <= mine - self.view.period {
            return false;
        }
        if row < other && theirs <= mine {
            return false;
        }
        mine <= theirs || self.departure(other) != self.departure(row)
    }

    /// Whether the row has a pair that all rows leave it.
    pub(crate) fn is_chosen(&self, row: usize) -> bool
        requires { row < self.now.view.rows }
        ensures { MatchBool result (ChosenRow self.now.view self.now.memory.now row) (ChosenRow self.now.view self.now.memory.now row → ⊥) }
    {
        self.reaches(row)
            && (0..self.view.rows).all(|other| !self.reaches(other) || self.yields(row, other))
    }

    /// The first chosen row that departs at the minute or later.
    fn first_from(&self, minute: u32) -> Option<usize>
        ensures { MatchOption result (NoneFrom self.now.view self.now.memory.now minute) (λ i. FirstFrom self.now.view self.now.memory.now minute i) }
    {
        (0..self.view.rows).find(|&row| minute <= self.departure(row) && self.is_chosen(row))
    }

    /// The row of the first unbeaten pair that departs at the minute or later, if any row reaches the target.
    pub fn first_pair(&self, minute: u32) -> Option<Hit>
        ensures { MatchOption result ((j : ℕ) → ChosenRow self.now.view self.now.memory.now j → ⊥) (λ h. FirstPair self.now.view self.now.memory.now minute h.row h.periods) }
    {
        // With `or_else`, the proof lacks what the search of the next period found.
        if let Some(row) = self.first_from(minute) {
            return Some(Hit { row, periods: 0 });
        }
        self.first_from(0).map(|row| Hit { row, periods: 1 })
    }
}
