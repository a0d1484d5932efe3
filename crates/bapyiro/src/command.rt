//! The commands, and how they are read from the arguments.

use crate::failure::Failure;
use std::alloc::{AllocError, Global};
use std::str::FromStr;
use timetable::Station;

/// A make of queue.
#[derive(Clone, Copy, Default, PartialEq, Eq)]
pub enum Make {
    #[default]
    Heap,
    Buckets,
}

/// A word that is no make of queue.
#[derive(Clone, Copy)]
pub struct UnknownMake;

impl FromStr for Make {
    type Err = UnknownMake;

    fn from_str(word: &str) -> Result<Make, UnknownMake> {
        match word {
            "heap" => Ok(Make::Heap),
            "bucket" => Ok(Make::Buckets),
            _ => Err(UnknownMake),
        }
    }
}

/// A command with its arguments.
#[derive(Clone, Copy)]
pub enum Command<'a> {
    Demo,
    Check(&'a str),
    Show(&'a str),
    Write(&'a str, &'a str),
    Search(&'a str, Station, Make),
    Run(&'a str, &'a str),
    Help,
}

const HELP: &str = "bapyiro demo                       the worked example, each step printed
bapyiro check IMAGE                open an image and print its counts, or why it is refused
bapyiro show IMAGE                 list stations and trains as people read them
bapyiro write IMAGE OUT            open an image, write it out again and compare the bytes
bapyiro search IMAGE FROM [MAKE]   first departures, leading labels, and what is worth taking to each station;
                                   MAKE is the make of the queues, heap (as if left out) or bucket
bapyiro run IMAGE SCRIPT           a list of calls on one planner and one label memory
bapyiro help                       this page";

/// Prints the commands.
pub(crate) fn help(rt: &HostRuntime) -> Result<(), Failure> {
    rt.println(HELP)?;
    Ok(())
}

/// An argument that is parsed; where it cannot be, the failure says what it is not.
// A number may begin with `+` here; those of a script are digits only, so a function of its own reads them.
fn argument<T: FromStr>(heap: Global, word: &str, what: &str) -> Result<T, Failure>
where
    T::Err: Drop,
{
    word.parse::<T>().try_map_err(|_| {
        Ok(Failure::Arguments(format!(in heap; "'{word}' is no {what}")?))
    })
}

/// The station of a number.
fn station(heap: Global, word: &str) -> Result<Station, Failure> {
    argument(heap, word, "number of a station").map(Station)
}

/// Why these words, a name and its arguments, are no command.
fn no_command(heap: Global, words: &[&str]) -> Result<Failure, AllocError> {
    let what = match *words {
        [] => String::from_str(heap, "no command")?,
        [name, _, _, _, _, ..] => format!(in heap; "too many arguments for '{name}'")?,
        [
            name @ ("demo" | "help" | "check" | "show" | "write" | "search" | "run"),
            ..
        ] => { format!(in heap; "wrong arguments for '{name}'")? }
        [name, ..] => format!(in heap; "no command '{name}'")?,
    };
    Ok(Failure::Arguments(what))
}

/// The command that the words ask for.
pub(crate) fn read<'a>(heap: Global, words: &[&'a str]) -> Result<Command<'a>, Failure> {
    match *words {
        ["demo"] => Ok(Command::Demo),
        ["help"] => Ok(Command::Help),
        ["check", image] => Ok(Command::Check(image)),
        ["show", image] => Ok(Command::Show(image)),
        ["write", image, out] => Ok(Command::Write(image, out)),
        ["run", image, script] => Ok(Command::Run(image, script)),
        ["search", image, from] => {
            Ok(Command::Search(image, station(heap, from)?, Make::default()))
        }
        ["search", image, from, make] => Ok(Command::Search(
            image,
            station(heap, from)?,
            argument(heap, make, "make of queue")?,
        )),
        _ => Err(no_command(heap, words)?),
    }
}
