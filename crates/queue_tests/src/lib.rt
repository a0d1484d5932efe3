//! Tests of the queues: one body for every make.

#![tactic(auto)]

#[cfg(test)]
mod bodies;
#[cfg(test)]
mod bucket_queue;
#[cfg(test)]
mod heap_queue;
#[cfg(test)]
mod model;
