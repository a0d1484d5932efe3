//! The numberings of a timetable, each from 0 on. Each is a type of its own, so that none is taken for another.

/// The number of a station.
#[derive(Clone, Copy, PartialEq, Eq, PartialOrd, Ord, Default, Debug)]
pub struct Station(pub u16);

/// The number of a train.
#[derive(Clone, Copy, PartialEq, Eq, PartialOrd, Ord, Default, Debug)]
pub struct Train(pub u16);

/// The number of a connection.
#[derive(Clone, Copy, PartialEq, Eq, PartialOrd, Ord, Default, Debug)]
pub struct ConnectionNo(pub u16);
