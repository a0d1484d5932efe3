//! What a queue is: its kinds of entry and its promises, for any make of queue.

#![tactic(auto)]

pub mod entry;
pub mod interface;
pub mod room;

pub use entry::Entry;
pub use interface::Queue;
pub use room::check_room;
