//! `bapyiro`: reads, checks, lists, writes and searches packed timetables, and carries out scripts.

#![tactic(auto)]

mod command;
mod demo;
mod failure;
mod files;
mod lending;
mod printing;
mod running;
mod script;
mod searching;

use command::Command;
use failure::Failure;
use std::env;
use std::process::ExitCode;

fn run(rt: &HostRuntime) -> Result<(), Failure> {
    let heap = rt.alloc();
    let arguments: Vec<String> = env::args(rt)?.skip(1).collect(heap)?;
    let words: Vec<&str> = arguments.iter().map(|word| word.as_str()).collect(heap)?;
    match command::read(heap, words.as_slice())? {
        Command::Demo => demo::run(rt),
        Command::Check(image) => files::check(rt, image),
        Command::Show(image) => files::show(rt, image),
        Command::Write(image, out) => files::write(rt, image, out),
        Command::Search(image, from, make) => searching::run(rt, image, from, make),
        Command::Run(image, script) => running::run(rt, image, script),
        Command::Help => command::help(rt),
    }
}

fn main(rt: HostRuntime) -> ExitCode {
    match run(&rt) {
        Ok(()) => ExitCode::SUCCESS,
        Err(failure) => {
            let _ = eprintln!(rt; "bapyiro: {failure}");
            ExitCode::FAILURE
        }
    }
}
