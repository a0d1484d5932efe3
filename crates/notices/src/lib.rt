//! Notices: a timetable over any timetable, changed by what is reported of its trains.

#![tactic(auto)]

pub mod layer;
pub mod notice;
pub mod table;

pub use layer::Notices;
pub use notice::Notice;
pub use table::NoticeTable;
