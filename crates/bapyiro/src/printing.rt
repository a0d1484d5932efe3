//! The answers of a run, with moments as plain minutes.

use crate::failure::Failure;
use crate::running::Carried;
use crate::script::Spelled;
use replay::{Answer, Order};
use search::Found;
use std::fmt;
use timetable::{ConnectionNo, Leg, Pair, Train};

/// The answer to a call, with what it wrote.
#[derive(Clone, Copy)]
struct Told<'a> {
    order: &'a Order,
    answer: &'a Answer,
    carried: &'a Carried,
}

impl Told<'_> {
    /// Writes the pairs that a profile gave, each on a line.
    fn pairs<W: fmt::Write>(&self, f: &mut fmt::Formatter<W>, count: usize) -> fmt::Result {
        for pair in self.carried.pairs.iter().skip(self.order.from).take(count) {
            let Pair { departure, arrival } = *pair;
            write!(f, "\n  {departure} {arrival}")?;
        }
        Ok(())
    }

    /// Writes the legs that a journey gave, each on a line.
    fn legs<W: fmt::Write>(&self, f: &mut fmt::Formatter<W>, count: usize) -> fmt::Result {
        for leg in self.carried.legs.iter().skip(self.order.from).take(count) {
            let Leg {
                train: Train(train),
                first: ConnectionNo(first),
                last: ConnectionNo(last),
                departure,
                arrival,
            } = *leg;
            write!(
                f,
                "\n  train {train}, connections {first} to {last}, {departure} to {arrival}"
            )?;
        }
        Ok(())
    }
}

impl fmt::Display for Told<'_> {
    fn fmt<W: fmt::Write>(&self, f: &mut fmt::Formatter<W>) -> fmt::Result {
        let call = Spelled(self.order.call);
        match *self.answer {
            Answer::Noted(Ok(())) => write!(f, "{call}: done"),
            Answer::Searched(Ok(Found { departures, labels })) => {
                write!(
                    f,
                    "{call}: {departures} first departures, {labels} leading labels"
                )
            }
            Answer::Arrived(Ok(Pair { departure, arrival })) => write!(
                f,
                "{call}: {departure} {arrival}"
            ),
            Answer::Profiled(Ok(count)) => {
                write!(f, "{call}: {count} pairs")?;
                self.pairs(f, count)
            }
            Answer::Travelled(Ok(count)) => {
                write!(f, "{call}: {count} legs")?;
                self.legs(f, count)
            }
            // every kind of answer holds its own result, and one arm serves the refusals of all
            Answer::Noted(Err(refusal))
            | Answer::Searched(Err(refusal))
            | Answer::Arrived(Err(refusal))
            | Answer::Profiled(Err(refusal))
            | Answer::Travelled(Err(refusal)) => {
                let (number, layer, item) = refusal.told();
                write!(f, "{call}: refused {number}, layer {layer}, item {item}")
            }
        }
    }
}

/// Prints an answer for each call, in their order.
pub(crate) fn print_answers(rt: &HostRuntime, carried: &Carried) -> Result<(), Failure> {
    for (order, answer) in carried.orders.iter().zip(carried.answers.iter()) {
        rt.println(Told {
            order,
            answer,
            carried,
        })?;
    }
    Ok(())
}
