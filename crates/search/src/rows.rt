//! Reading and writing the rows: row after row, each with its first departure and then an entry for each place.

ghost use Rattle.std.specs.Prelude.{not, ◌≡◌, ◌+◌, ◌*◌, ◌<◌, ◌≤◌, length};
ghost use Rattle.timetable.specs.Labels.{ranks};
ghost use Rattle.timetable.specs.Rows.{width, entry as cell};
ghost use Rattle.turns.specs.Cells.{Settled, RowOpened};
ghost use Rattle.turns.specs.Counts.{is_blank};
ghost use Rattle.turns.specs.Running.{memory_needed};
ghost use Rattle.turns.specs.Theorems.{with_label};

use crate::plan::Plan;
use entries::{BoardEntry, LabelEntry, Place, Rank};
use timetable::{Label, Means, Timetable};

// The memory is lent to each method. A struct that kept it beside the plan would have to say of each write that the plan
// and the reference stay as they were, which is longer than that the memory is long enough.
impl<T: Timetable> Plan<'_, T> {
    /// Where the entry of a rank and a place stands.
    fn index(&self, rank: Rank, place: Place) -> usize
        ensures index { result ≡ rank.0 * width (T.Means.meaning self.now.t.now) + (1 + place.0) }
        ensures inside { rank.0 < self.now.departures → place.0 < self.now.places → result < memory_needed (T.Means.meaning self.now.t.now) self.now.source.0 }
    {
        rank.0 as usize * (self.places + 1) + (1 + place.0 as usize)
    }

    /// Whether a rank has a label at a place.
    fn has(&self, memory: &[Label], rank: Rank, place: Place) -> bool
        ensures { result ≡ not (is_blank (cell (T.Means.meaning self.now.t.now) memory.now rank.0 place.0)) }
    {
        memory
            .get(self.index(rank, place))
            .is_some_and(|label| label.minute != Label::NONE)
    }

    /// Whether the rank of x or a higher one has a label at its place.
    pub fn settled(&self, memory: &[Label], x: LabelEntry) -> bool
        ensures { let t = T.Means.meaning self.now.t.now in Settled (ranks t self.now.source.0) (cell t memory.now) x.rank.0 x.place.0 result }
    {
        (x.rank.0..self.departures).any(|rank| self.has(memory, Rank(rank), x.place))
    }

    /// Writes the label of x.
    pub(crate) fn write(&self, memory: &mut [Label], x: LabelEntry)
        requires fits { memory_needed (T.Means.meaning self.now.t.now) self.now.source.0 ≤ length memory.old }
        requires rank { x.rank.0 < self.now.departures }
        requires place { x.place.0 < self.now.places }
        ensures { memory.new ≡ with_label (T.Means.meaning self.now.t.now) memory.old x }
    {
        memory[self.index(x.rank, x.place)] = Label {
            minute: x.minute,
            origin: x.origin.0,
        };
    }

    /// Opens a row: its first departure, and a blank entry for each place.
    pub(crate) fn open_row(&self, memory: &mut [Label], rank: Rank, first: BoardEntry)
        requires fits { memory_needed (T.Means.meaning self.now.t.now) self.now.source.0 ≤ length memory.old }
        requires rank { rank.0 < self.now.departures }
        ensures { RowOpened (width (T.Means.meaning self.now.t.now)) rank.0 (record { minute = first.minute; origin = first.connection.0 }) memory.old memory.new }
    {
        let start = rank.0 as usize * (self.places + 1);
        memory[start..start + 1 + self.places].fill(Label::BLANK);
        memory[start] = Label {
            minute: first.minute,
            origin: u32::from(first.connection.0),
        };
    }
}
