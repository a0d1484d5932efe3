ghost use Rattle.std.specs.Prelude.{◌≡◌};
ghost use Rattle.refusals.specs.Told.{told};
ghost use Rattle.refusals.specs.Layers.{layer_number};

use crate::layer::Layer;

/// Why a call was refused. Each case carries the item that the refusal names.
#[derive(Clone, Copy, PartialEq, Eq, Debug)]
pub enum Refusal {
    // opening an image
    /// an image shorter than its header: its length
    ShortHeader(usize),
    /// a mark byte that differs: the position of the first
    WrongMark(usize),
    /// a version that is not known: the version
    UnknownVersion(u16),
    /// a number of the header outside its limit: the first one's byte
    HeaderLimit(usize),
    /// a length other than the header's numbers ask for: the length
    WrongLength(usize),
    /// a transfer time above its limit: the station
    LongTransfer(u16),
    /// a record with a field out of its limit: the record
    RecordLimit(u16),
    /// a record that starts and ends at one station: the record
    SameStation(u16),
    /// a record whose train falls, or does not go on where it ended: the record
    BrokenTrain(u16),

    // a timetable's questions
    /// the number of a station that is not there
    NoStation(u16),
    /// the number of a connection that is not there
    NoConnection(u16),

    // a queue
    /// a queue that holds as many entries as it can: its capacity
    FullQueue(usize),

    // writing an image
    /// an output too short for the image: the length needed
    ShortOutput(usize),

    // notices
    /// a train that is not there: the train
    NoTrain(u16),
    /// a delay outside its limit: the delay
    DelayLimit(u16),
    /// no slot is free for one more train: the train
    FullNotices(u16),
    /// no notice stands for the train: the train
    NothingToLift(u16),

    // a search
    /// a source that is no station: the source
    NoSource(u16),
    /// a board queue too small: the number of first departures
    SmallBoard(usize),
    /// a label queue too small: the capacity needed
    SmallLabelQueue(usize),
    /// a label memory too small for the rows: the entries needed
    SmallLabelMemory(usize),

    // questions to a planner
    /// no search stands
    NoSearch,
    /// a target that is no station: the target
    NoTarget(u16),
    /// a target that is the source: the target
    TargetIsSource(u16),
    /// a minute not below the period: the minute
    MinuteLimit(u32),
    /// a label memory shorter than the rows: the entries needed
    ShortRows(usize),
    /// rows that no search wrote: the row
    ForeignRows(usize),
    /// no row reaches the target: the target
    Unreachable(u16),
    /// an output too short for the answer: the entries needed
    ShortAnswer(usize),
}

impl Refusal {
    /// The refusal's number.
    pub fn number(self) -> u8
        ensures { result ≡ (told self).number }
    {
        match self {
            Refusal::ShortHeader(_) => 1,
            Refusal::WrongMark(_) => 2,
            Refusal::UnknownVersion(_) => 3,
            Refusal::HeaderLimit(_) => 4,
            Refusal::WrongLength(_) => 5,
            Refusal::LongTransfer(_) => 6,
            Refusal::RecordLimit(_) => 7,
            Refusal::SameStation(_) => 8,
            Refusal::BrokenTrain(_) => 9,
            Refusal::NoStation(_) | Refusal::NoConnection(_) => 10,
            Refusal::FullQueue(_) => 11,
            Refusal::ShortOutput(_) => 12,
            Refusal::NoTrain(_) => 21,
            Refusal::DelayLimit(_) => 22,
            Refusal::FullNotices(_) => 23,
            Refusal::NothingToLift(_) => 24,
            Refusal::NoSource(_) => 31,
            Refusal::SmallBoard(_) => 32,
            Refusal::SmallLabelQueue(_) => 33,
            Refusal::SmallLabelMemory(_) => 34,
            Refusal::NoSearch => 41,
            Refusal::NoTarget(_) => 42,
            Refusal::TargetIsSource(_) => 43,
            Refusal::MinuteLimit(_) => 44,
            Refusal::ShortRows(_) => 45,
            Refusal::ForeignRows(_) => 46,
            Refusal::Unreachable(_) => 47,
            Refusal::ShortAnswer(_) => 48,
        }
    }

    /// The layer that refuses.
    pub fn layer(self) -> Layer
        ensures { layer_number result ≡ (told self).layer }
    {
        match self {
            Refusal::FullQueue(_) => Layer::Queue,
            Refusal::ShortHeader(_)
            | Refusal::WrongMark(_)
            | Refusal::UnknownVersion(_)
            | Refusal::HeaderLimit(_)
            | Refusal::WrongLength(_)
            | Refusal::LongTransfer(_)
            | Refusal::RecordLimit(_)
            | Refusal::SameStation(_)
            | Refusal::BrokenTrain(_)
            | Refusal::NoStation(_)
            | Refusal::NoConnection(_)
            | Refusal::ShortOutput(_) => Layer::Timetable,
            Refusal::NoTrain(_)
            | Refusal::DelayLimit(_)
            | Refusal::FullNotices(_)
            | Refusal::NothingToLift(_) => Layer::Notices,
            Refusal::NoSource(_)
            | Refusal::SmallBoard(_)
            | Refusal::SmallLabelQueue(_)
            | Refusal::SmallLabelMemory(_)
            | Refusal::NoSearch
            | Refusal::NoTarget(_)
            | Refusal::TargetIsSource(_)
            | Refusal::MinuteLimit(_)
            | Refusal::ShortRows(_)
            | Refusal::ForeignRows(_)
            | Refusal::Unreachable(_)
            | Refusal::ShortAnswer(_) => Layer::Planner,
        }
    }

    /// The item that the refusal names.
    pub fn item(self) -> usize
        ensures { result ≡ (told self).item }
    {
        match self {
            Refusal::ShortHeader(n)
            | Refusal::WrongMark(n)
            | Refusal::HeaderLimit(n)
            | Refusal::WrongLength(n)
            | Refusal::FullQueue(n)
            | Refusal::ShortOutput(n)
            | Refusal::SmallBoard(n)
            | Refusal::SmallLabelQueue(n)
            | Refusal::SmallLabelMemory(n)
            | Refusal::ShortRows(n)
            | Refusal::ForeignRows(n)
            | Refusal::ShortAnswer(n) => n,
            Refusal::UnknownVersion(n)
            | Refusal::LongTransfer(n)
            | Refusal::RecordLimit(n)
            | Refusal::SameStation(n)
            | Refusal::BrokenTrain(n)
            | Refusal::NoStation(n)
            | Refusal::NoConnection(n)
            | Refusal::NoTrain(n)
            | Refusal::DelayLimit(n)
            | Refusal::FullNotices(n)
            | Refusal::NothingToLift(n)
            | Refusal::NoSource(n)
            | Refusal::NoTarget(n)
            | Refusal::TargetIsSource(n)
            | Refusal::Unreachable(n) => usize::from(n),
            Refusal::MinuteLimit(minute) => minute as usize,
            Refusal::NoSearch => 0,
        }
    }

    /// Number, layer and item, as equipment reads them.
    pub fn told(self) -> (u8, u8, usize)
        ensures { result ≡ ((told self).number, (told self).layer, (told self).item) }
    {
        (self.number(), self.layer().number(), self.item())
    }
}
