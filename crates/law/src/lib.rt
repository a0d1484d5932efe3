//! The law over runs of calls on one planner and one label memory: the book that is kept of the calls, what each call answers
//! by it, and when planner and memory agree with it. Each theorem is the contract of a function, so that the crate is not
//! proved without it.

#![tactic(auto)]

ghost use Rattle.law.specs.Theorems.{FreshAgrees, OneBook, RowsInFront, NeverForeign};

/// A planner with no notice and no standing search agrees with the fresh book, whatever the label memory holds.
pub fn fresh_agrees()
    ensures { FreshAgrees }
{}

/// Planner and memory agree with one book at most.
pub fn one_book_agrees()
    ensures { OneBook }
{}

/// A memory and a front of it that is long enough have the same rows.
pub fn rows_are_in_front()
    ensures { RowsInFront }
{}

/// By the law no question is refused for rows that no search wrote.
pub fn rows_are_never_foreign()
    ensures { NeverForeign }
{}
