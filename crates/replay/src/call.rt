use timetable::{Station, Train};

/// A call of a planner.
#[derive(Clone, Copy, PartialEq, Eq, Debug)]
pub enum Call {
    Cancel(Train),
    /// the minutes by which it is late
    Late(Train, u16),
    Lift(Train),
    /// the source
    Search(Station),
    /// the target and the minute
    Arrive(Station, u32),
    Profile(Station),
    Journey(Station, u32),
}
