//! The planner: a timetable under reports, and the search that stands over it. The seven calls are cancel, late and lift, search,
//! and arrive, profile and journey.
//!
//! A planner holds the reports and what it has to know of its last search: the source, and how many rows there are. Queues,
//! label memory and outputs are lent to each call. A report that is accepted ends the standing search, since its rows are those
//! of a timetable that is no longer in force; then the questions are refused until the next search.
//!
//! Each call has the answer over what the planner holds, and the law's line for it: for every book of the calls so far with
//! which planner and memory agree, what it answers by the book, and that they agree with the book afterwards.

#![tactic(auto)]

pub mod planner;

pub use planner::Planner;
