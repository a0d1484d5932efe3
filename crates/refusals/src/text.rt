ghost use Rattle.std.specs.Prelude.{◌≡◌, Some};
ghost use Rattle.refusals.specs.Text.{meaning as words, line};

use crate::refusal::Refusal;
use std::fmt;

impl Refusal {
    /// What the refusal says, in words.
    fn meaning(self) -> &'static str
        ensures { result.now ≡ words self }
    {
        match self {
            Refusal::ShortHeader(_) => "an image shorter than its header",
            Refusal::WrongMark(_) => "a mark byte that differs",
            Refusal::UnknownVersion(_) => "a version that is not 1",
            Refusal::HeaderLimit(_) => "a number of the header out of its limit",
            Refusal::WrongLength(_) => "a length that the header does not ask for",
            Refusal::LongTransfer(_) => "a transfer time above 1440 minutes",
            Refusal::RecordLimit(_) => "a record with a field out of its limit",
            Refusal::SameStation(_) => "a record that ends where it starts",
            Refusal::BrokenTrain(_) =>
                "a record whose train falls or does not go on where it ended",
            Refusal::NoStation(_) => "no such station",
            Refusal::NoConnection(_) => "no such connection",
            Refusal::FullQueue(_) => "the queue is full",
            Refusal::ShortOutput(_) => "an output too short for the image",
            Refusal::NoTrain(_) => "no such train",
            Refusal::DelayLimit(_) => "a delay of 0 or above 1440 minutes",
            Refusal::FullNotices(_) => "32 notices stand and none is for this train",
            Refusal::NothingToLift(_) => "no notice stands for this train",
            Refusal::NoSource(_) => "a source that is no station",
            Refusal::SmallBoard(_) => "a board queue too small for the first departures",
            Refusal::SmallLabelQueue(_) => "a label queue too small for the search",
            Refusal::SmallLabelMemory(_) => "a label memory too small for the rows",
            Refusal::NoSearch => "no search stands",
            Refusal::NoTarget(_) => "a target that is no station",
            Refusal::TargetIsSource(_) => "a target that is the source",
            Refusal::MinuteLimit(_) => "a minute not below the period",
            Refusal::ShortRows(_) => "a label memory shorter than the rows",
            Refusal::ForeignRows(_) => "rows that no search wrote",
            Refusal::Unreachable(_) => "no row reaches the target",
            Refusal::ShortAnswer(_) => "an output too short for the answer",
        }
    }
}

/// One line: number, layer, item and meaning.
impl fmt::Display for Refusal {
    ghost output = { λ r. Some (line r) };

    fn fmt<W: fmt::Write>(&self, f: &mut fmt::Formatter<W>) -> fmt::Result {
        let (number, layer, item) = self.told();
        let meaning = self.meaning();
        write!(f, "refused {number}, layer {layer}, item {item}: {meaning}")
    }
}
