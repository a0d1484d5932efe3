//! Images put together from plain numbers, lawful or not (opening one tells), and the two example timetables.

#![tactic(auto)]

pub mod examples;
pub mod packed;

pub use packed::Draft;
