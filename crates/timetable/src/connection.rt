use crate::numbers::{Station, Train};

/// One train's ride from one station to the next.
#[derive(Clone, Copy, PartialEq, Eq, Default, Debug)]
pub struct Connection {
    pub train: Train,
    pub start: Station,
    pub end: Station,
    /// the minute of the period at which it departs
    pub departure: u16,
    /// how many minutes the ride takes
    pub ride: u16,
    /// whether it runs
    pub runs: bool,
}
