//! Tests of the search and of the questions to its rows, over images: the worked examples, the limits of every refusal, rows
//! that no search wrote, and timetables of particular shapes. Expected values come from the definitions, worked out by hand
//! or by an independent program.

#![tactic(auto)]

#[cfg(test)]
mod damage;
#[cfg(test)]
mod limits;
#[cfg(test)]
mod shapes;
#[cfg(test)]
mod shared;
#[cfg(test)]
mod worked;
