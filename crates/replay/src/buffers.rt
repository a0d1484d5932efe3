use timetable::{Label, Leg, Pair};

/// The caller's memory that calls write to.
#[derive(Drop)]
pub struct Buffers<'m, 'p, 'l> {
    /// the label memory, for the rows of searches
    pub memory: &'m mut [Label],
    /// the output of profile
    pub pairs: &'p mut [Pair],
    /// the output of journey
    pub legs: &'l mut [Leg],
}
