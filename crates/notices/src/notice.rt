ghost use Rattle.std.specs.Prelude.{◌≡◌, Some};
ghost use Rattle.notices.specs.Slots.{names};

use timetable::{Report, Train};

/// What is reported of one train.
#[derive(Clone, Copy, PartialEq, Eq, Debug)]
pub struct Notice {
    pub train: Train,
    pub report: Report,
}

impl Notice {
    /// Whether it is for this train.
    pub fn names(self, train: Train) -> bool
        ensures { result ≡ names (Some self) train.0 }
    {
        self.train == train
    }
}
