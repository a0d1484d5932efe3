//! Tests of the packed image: every refusal at its limit, and round trips.

#![tactic(auto)]

#[cfg(test)]
mod opening;
#[cfg(test)]
mod round_trips;
#[cfg(test)]
mod shared;
