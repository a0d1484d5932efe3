//! The kinds of entry that a search puts into its queues.

#![tactic(auto)]

pub mod board;
pub mod label;
pub mod numbers;

pub use board::BoardEntry;
pub use label::LabelEntry;
pub use numbers::{Place, Rank};
