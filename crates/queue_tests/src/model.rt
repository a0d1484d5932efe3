//! A plain list that stands for a queue, and random sequences.

use entries::BoardEntry;
use timetable::ConnectionNo;

pub fn board(minute: u32, connection: u16) -> BoardEntry {
    BoardEntry {
        minute,
        connection: ConnectionNo(connection),
    }
}

// The key is the model's own, so that it does not rest on the order that it tests.
/// Takes the first by minute and connection out of the list.
pub fn take_first(list: &mut Vec<BoardEntry>) -> Option<BoardEntry> {
    let first = *list.iter().min_by_key(|e| (e.minute, e.connection.0))?;
    let place = list.iter().position(|e| *e == first)?;
    Some(list.remove(place))
}

/// Numbers that look random, from a seed on.
#[derive(Drop)]
pub struct Draws(pub u32);

impl Iterator for Draws {
    type Item = u32;

    fn next(&mut self) -> Option<u32> {
        self.0 = self.0.wrapping_mul(1664525).wrapping_add(1013904223);
        Some(self.0)
    }
}
