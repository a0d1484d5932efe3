//! A queue as a binary heap in the caller's cells.

#![tactic(auto)]

pub mod heap;
mod sift;

pub use heap::Heap;
