use crate::numbers::{ConnectionNo, Train};

/// A part of a journey on one train: its first and last connection, and the moments of departure and arrival.
#[derive(Clone, Copy, PartialEq, Eq, Default, Debug)]
pub struct Leg {
    pub train: Train,
    pub first: ConnectionNo,
    pub last: ConnectionNo,
    pub departure: u32,
    pub arrival: u32,
}
