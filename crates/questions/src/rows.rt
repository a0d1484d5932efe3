//! The rows of a search as they stand in a label memory.

ghost use Rattle.std.specs.Prelude.{◌≡◌, ◌+◌, ◌<◌, length, MatchBool, MatchOption};
ghost use Rattle.timetable.specs.Labels.{no_origin};
ghost use Rattle.answers.specs.Rowwise.{row_head, row_entry, leaving, coming, Comes, Within};

use answers::View;
use timetable::Label;

/// The place that a label comes from, unless it is that of a first ride.
pub fn origin_of(label: Label) -> Option<usize>
    ensures { MatchOption result (label.origin ≡ no_origin) (λ o. (o ≡ label.origin) × (label.origin ≡ no_origin → ⊥)) }
{
    (label.origin != Label::NONE).then_some(label.origin as usize)
}

/// Rows that are all in a label memory, looked at for a target.
#[derive(Clone, Copy)]
pub struct LabelRows<'m> {
    pub view: View,
    pub memory: &'m [Label],
    ghost within: { Within view (length memory.now) },
}

// Each method asks that the row is there, as a slice asks it of an index: a row is compared with every other, so a type for a
// row that is there would be made anew for each other row, from the same bound.
impl LabelRows<'_> {
    /// A row's departure and connection.
    pub(crate) fn head(&self, row: usize) -> Label
        requires { row < self.now.view.rows }
        ensures { result ≡ row_head self.now.view self.now.memory.now row }
    {
        self.memory[row * self.view.width]
    }

    /// A row's entry of a place.
    pub(crate) fn entry(&self, row: usize, place: usize) -> Label
        requires row { row < self.now.view.rows }
        requires place { 1 + place < self.now.view.width }
        ensures { result ≡ row_entry self.now.view self.now.memory.now row place }
    {
        self.memory[row * self.view.width + (1 + place)]
    }

    /// The minute at which a row departs.
    pub(crate) fn departure(&self, row: usize) -> u32
        requires { row < self.now.view.rows }
        ensures { result ≡ leaving self.now.view self.now.memory.now row }
    {
        self.head(row).minute
    }

    /// The minute of a row's entry of the target, which is `Label::NONE` where that is blank.
    // Arrivals are judged and compared as the memory's format has them, so this is no `Option`.
    pub(crate) fn arrival(&self, row: usize) -> u32
        requires { row < self.now.view.rows }
        ensures { result ≡ coming self.now.view self.now.memory.now row }
    {
        self.entry(row, self.view.target).minute
    }

    /// Whether a row has an entry for the target.
    pub(crate) fn reaches(&self, row: usize) -> bool
        requires { row < self.now.view.rows }
        ensures { MatchBool result (Comes self.now.view self.now.memory.now row) (Comes self.now.view self.now.memory.now row → ⊥) }
    {
        self.arrival(row) != Label::NONE
    }
}
