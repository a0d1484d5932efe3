/// What a search has found: how many first departures there are, and how many labels it has written.
#[derive(Clone, Copy, PartialEq, Eq, Debug)]
pub struct Found {
    pub departures: u32,
    pub labels: u32,
}
