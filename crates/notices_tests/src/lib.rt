//! Tests of the notices by real calls over images.

#![tactic(auto)]

#[cfg(test)]
mod reports;
