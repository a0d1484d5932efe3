//! Arrive, profile and journey: questions to the rows of a search as they stand in a label memory, over any timetable.

#![tactic(auto)]

mod arrivals;
mod asking;
mod chain;
mod choosing;
mod finding;
mod giving;
mod judging;
mod profiles;
mod rows;
pub mod standing;
mod tracing;

pub use arrivals::arrive;
pub use profiles::profile;
pub use standing::Standing;
pub use tracing::journey;
