/// What is reported of a train. Where nothing is, there is no report.
#[derive(Clone, Copy, PartialEq, Eq, Debug)]
pub enum Report {
    /// it does not run
    Cancelled,
    /// late by so many minutes
    Late(u16),
}
