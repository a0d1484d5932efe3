//! What a timetable is: its numberings, its connections, and the questions that every timetable answers.
//!
//! `specs/` defines what a timetable means (`Table`) and, over that meaning, itineraries (`Itinerary`), pairs of
//! departure and arrival (`Pairs`), labels (`Labels`) and the rows of a search (`Rows`).

#![tactic(auto)]

pub mod asking;
pub mod connection;
pub mod counts;
pub mod interface;
pub mod label;
pub mod leg;
pub mod numbers;
pub mod pair;
pub mod report;

pub use asking::{connection_at, places, transfer_at, wait};
pub use connection::Connection;
pub use counts::Counts;
pub use interface::{Means, Timetable};
pub use label::Label;
pub use leg::Leg;
pub use numbers::{ConnectionNo, Station, Train};
pub use pair::Pair;
pub use report::Report;
