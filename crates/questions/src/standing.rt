use timetable::Station;

/// A standing search, one whose rows are in a label memory: its source, and how many rows it wrote.
#[derive(Clone, Copy, PartialEq, Eq, Debug)]
pub struct Standing {
    pub source: Station,
    pub rows: u32,
}
