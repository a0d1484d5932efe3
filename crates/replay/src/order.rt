ghost use Rattle.std.specs.Prelude.{◌≡◌, min};

use crate::call::Call;
use search::Limits;
use std::ops::Range;

/// One of the two pairs of queues that are lent to a run.
#[derive(Clone, Copy, PartialEq, Eq, Debug)]
pub enum Queues {
    First,
    Second,
}

/// A call with what it is lent, as far as that reaches.
#[derive(Clone, Copy, PartialEq, Eq, Debug)]
pub struct Order {
    pub call: Call,
    /// which queues
    pub queues: Queues,
    /// how many entries of each queue, at most
    pub limits: Limits,
    /// how many entries of the label memory, from its start
    pub memory: usize,
    // Start and end are two numbers: a `Range` is not `Copy`, and an order is.
    /// where in the output its part begins
    pub from: usize,
    /// and where it ends
    pub to: usize,
}

impl Order {
    /// Its part of an output of this length, as far as the output reaches.
    pub(crate) fn part(&self, length: usize) -> Range<usize>
        ensures start { result.start ≡ min self.now.from (min self.now.to length) }
        ensures end { result.end ≡ min self.now.to length }
    {
        let end = self.to.min(length);
        self.from.min(end)..end
    }
}
