use refusals::Refusal;
use search::Found;
use timetable::Pair;

// Each case holds a `Result` of its own: the law's line of a call reads that call's own result as it is.
/// What a call answered.
#[derive(Clone, Copy, PartialEq, Eq, Debug)]
pub enum Answer {
    /// to cancel, late and lift
    Noted(Result<(), Refusal>),
    Searched(Result<Found, Refusal>),
    /// departure and arrival
    Arrived(Result<Pair, Refusal>),
    /// how many pairs were written
    Profiled(Result<usize, Refusal>),
    /// how many legs were written
    Travelled(Result<usize, Refusal>),
}
