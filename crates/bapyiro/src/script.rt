//! Scripts: a list of calls as text.
//!
//! A line is a call or a setting; empty lines and lines that begin with `#` are passed over. Words are separated by single
//! spaces, numbers are decimal.

use crate::command::Make;
use crate::failure::Failure;
use replay::Call;
use search::Limits;
use std::alloc::Global;
use std::fmt;
use std::str::FromStr;
use timetable::{Station, Train};

/// What is lent to each call, at most: the make of the queues, their capacities, the entries of the label memory and of an
/// output.
#[derive(Clone, Copy)]
pub struct Settings {
    pub make: Make,
    pub limits: Limits,
    pub memory: usize,
    pub room: usize,
}

/// Until something is set: heaps, and as much as is needed: each number is an upper limit, and the largest limits nothing.
pub const UNSET: Settings = Settings {
    make: Make::Heap,
    limits: Limits {
        board: usize::MAX,
        labels: usize::MAX,
    },
    memory: usize::MAX,
    room: usize::MAX,
};

/// A call with the settings at its line.
#[derive(Clone, Copy)]
pub struct Entry {
    pub call: Call,
    pub settings: Settings,
}

/// A decimal number. Only digits are taken, no sign.
// The arguments of a command are parsed as they are, with a `+` if there is one, so this is a function of its own.
fn number<N: FromStr>(word: &str) -> Option<N>
where
    N::Err: Drop,
{
    if word.bytes().all(|b| b.is_ascii_digit()) {
        word.parse::<N>().ok()
    } else {
        None
    }
}

/// Two numbers with a space between.
fn numbers<M: FromStr, N: FromStr>(words: &str) -> Option<(M, N)>
where
    M: Drop,
    M::Err: Drop,
    N::Err: Drop,
{
    let (first, second) = words.split_once(' ')?;
    Some((number(first)?, number(second)?))
}

/// The call of a line's first word and of the words behind it. It is no `FromStr`, since a line is split once, for calls and
/// settings alike.
fn call_of(name: &str, rest: &str) -> Option<Call> {
    Some(match name {
        "cancel" => Call::Cancel(Train(number(rest)?)),
        "late" => {
            let (train, delay) = numbers(rest)?;
            Call::Late(Train(train), delay)
        }
        "lift" => Call::Lift(Train(number(rest)?)),
        "search" => Call::Search(Station(number(rest)?)),
        "arrive" => {
            let (target, minute) = numbers(rest)?;
            Call::Arrive(Station(target), minute)
        }
        "profile" => Call::Profile(Station(number(rest)?)),
        "journey" => {
            let (target, minute) = numbers(rest)?;
            Call::Journey(Station(target), minute)
        }
        _ => return None,
    })
}

/// A call as a script has it.
#[derive(Clone, Copy)]
pub struct Spelled(pub Call);

impl fmt::Display for Spelled {
    fn fmt<W: fmt::Write>(&self, f: &mut fmt::Formatter<W>) -> fmt::Result {
        match self.0 {
            Call::Cancel(Train(train)) => write!(f, "cancel {train}"),
            Call::Late(Train(train), delay) => write!(f, "late {train} {delay}"),
            Call::Lift(Train(train)) => write!(f, "lift {train}"),
            Call::Search(Station(source)) => write!(f, "search {source}"),
            Call::Arrive(Station(target), minute) => write!(f, "arrive {target} {minute}"),
            Call::Profile(Station(target)) => write!(f, "profile {target}"),
            Call::Journey(Station(target), minute) => write!(f, "journey {target} {minute}"),
        }
    }
}

impl Settings {
    /// The settings after the setting of a line's first word and of the word behind it.
    fn with(mut self, name: &str, word: &str) -> Option<Settings> {
        match name {
            "queues" => self.make = word.parse::<Make>().ok()?,
            "board" => self.limits.board = number(word)?,
            "labels" => self.limits.labels = number(word)?,
            "memory" => self.memory = number(word)?,
            "room" => self.room = number(word)?,
            _ => return None,
        }
        Some(self)
    }
}

/// The calls of a script, each with the settings at its line.
pub(crate) fn read(heap: Global, path: &str, text: &str) -> Result<Vec<Entry>, Failure> {
    let mut entries = Vec::new(heap);
    let mut settings = UNSET;
    for (place, line) in text.lines().enumerate() {
        if line.is_empty() || line.starts_with('#') {
            continue;
        }
        // The words are not collected: whatever a line holds, nothing is allocated to read it.
        let (name, rest) = line.split_once(' ').unwrap_or((line, ""));
        match call_of(name, rest) {
            Some(call) => entries.push(Entry { call, settings })?,
            None => {
                settings = settings.with(name, rest).try_ok_or_else(|| {
                    let number = place.saturating_add(1);
                    Ok(Failure::Arguments(format!(in heap;
                        "{path}: line {number}: no call and no setting: '{line}'"
                    )?))
                })?
            }
        }
    }
    Ok(entries)
}
