//! The packed image of a timetable: a reader over the caller's bytes, and a writer for any timetable.

#![tactic(auto)]

mod body;
mod header;
pub mod image;
mod layout;
pub mod packing;
mod record;
pub mod round_trip;
mod words;
pub mod writing;

pub use image::Image;
pub use packing::{header_bytes, number_bytes, record_bytes};
pub use round_trip::{copy, rewrite};
pub use writing::write;
