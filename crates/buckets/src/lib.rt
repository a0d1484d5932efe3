//! A queue of 256 buckets, chosen by the minute modulo 256 and chained through the caller's cells.

#![tactic(auto)]

pub mod buckets;
pub mod chain;
mod front;
mod heads;

pub use buckets::Buckets;
pub use chain::Cell;
