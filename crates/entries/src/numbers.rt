//! The numberings of a search. Each is a type of its own, so that none is taken for another or for a connection's.

/// The rank of a first departure: its place in their order, from 0 on.
#[derive(Clone, Copy, PartialEq, Eq, PartialOrd, Ord, Default, Debug)]
pub struct Rank(pub u32);

/// A place: a station, or the number of stations plus a connection.
#[derive(Clone, Copy, PartialEq, Eq, PartialOrd, Ord, Default, Debug)]
pub struct Place(pub u32);
