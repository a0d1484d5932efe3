//! Why a command was not carried out, in one line.

use refusals::Refusal;
use std::alloc::{AllocError, Global};
use std::io;
use thiserror::Error;

#[derive(Debug, Drop, Error)]
pub enum Failure {
    /// no such command, or not its arguments
    #[error("{0}; 'bapyiro help' lists the commands")]
    Arguments(String),
    /// a file, and what went wrong with it
    #[error("{0}: {1}")]
    File(String, Fault),
    /// standard output, or an argument that is no text
    #[error(transparent)]
    Io(#[from] io::Error),
    #[error("out of memory")]
    Memory(#[from(alloc)] AllocError),
}

/// What went wrong with a file.
#[derive(Debug, Drop, Error)]
pub enum Fault {
    /// it could not be read or written
    #[error(transparent)]
    Io(#[from] io::Error),
    /// it is an image that was refused, or that a call on it refused
    #[error(transparent)]
    Refused(#[from] Refusal),
}

/// What was done with a file; where it failed, the failure names the file.
pub(crate) fn of_file<T, E: Into<Fault> + Drop>(
    heap: Global,
    path: &str,
    outcome: Result<T, E>,
) -> Result<T, Failure> {
    outcome.try_map_err(|error| Ok(Failure::File(String::from_str(heap, path)?, error.into())))
}
