//! A timetable as people read it.

#![tactic(auto)]

pub mod clock;
pub mod lines;

pub use clock::Moment;
pub use lines::{counts, listing};
