//! Lists of calls, carried out one after another on one fresh planner and one label memory, and the law over such runs.
//!
//! An order is a call with what it is lent: one of two pairs of queues and how much of each, a front of the label memory, and a
//! part of the outputs. `specs/Runs` says what a run is: for each call a line of the law, at the book
//! that is kept of the calls before it.

#![tactic(auto)]

mod answer;
mod buffers;
mod call;
mod carrying;
mod lent;
mod order;
mod queue_pair;
mod running;

pub use answer::Answer;
pub use buffers::Buffers;
pub use call::Call;
pub use order::{Order, Queues};
pub use queue_pair::QueuePair;
pub use running::replay;
pub use search::Limits;
