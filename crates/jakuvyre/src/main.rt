//! Plays a script and lists what was done.

#![tactic(auto)]

use scripts::entry::Failure;
use scripts::playing::run;
use scripts::usage::USAGE;
use std::process::ExitCode;
use std::{env, fmt, fs, io};
use thiserror::Error;

// Where a script is read.
#[derive(Debug, Drop)]
enum Source {
    File(String),
    Input,
}

impl Source {
    fn read(&self, rt: &HostRuntime) -> io::Result<String> {
        match self {
            Source::File(name) => fs::read_to_string(rt, name.as_str()),
            Source::Input => io::read_to_string(rt.alloc(), rt.stdin()),
        }
    }
}

impl fmt::Display for Source {
    fn fmt<W: fmt::Write>(&self, f: &mut fmt::Formatter<W>) -> fmt::Result {
        match self {
            Source::File(name) => f.write_str(name.as_str()),
            Source::Input => f.write_str("standard input"),
        }
    }
}

// What the program is asked to do.
#[derive(Drop)]
enum Request {
    Help,
    Play(Source),
}

// Why it is not done.
#[derive(Debug, Drop, Error)]
enum Fault {
    #[error("expected one script file (jakuvyre --help says more)")]
    TooManyArguments,
    #[error("cannot read {script}: {error}")]
    Unreadable { script: Source, error: io::Error },
    #[error(transparent)]
    Script(#[from] Failure),
    // The arguments cannot be had, or the output cannot be written.
    #[error(transparent)]
    Host(#[from] io::Error),
}

fn asked_for(rt: &HostRuntime) -> Result<Request, Fault> {
    let mut args = env::args(rt)?.skip(1);
    let Some(first) = args.next() else {
        return Ok(Request::Play(Source::Input));
    };
    if args.next().is_some() {
        return Err(Fault::TooManyArguments);
    }
    if first.as_str() == "--help" {
        return Ok(Request::Help);
    }
    Ok(Request::Play(Source::File(first)))
}

fn play(rt: &HostRuntime, script: Source) -> Result<(), Fault> {
    let text = script
        .read(rt)
        .map_err(|error| Fault::Unreadable { script, error })?;
    for entry in run(rt.alloc(), text.as_str())?.iter() {
        println!(rt; "{entry}")?;
    }
    Ok(())
}

fn fulfil(rt: &HostRuntime) -> Result<(), Fault> {
    match asked_for(rt)? {
        Request::Help => Ok(print!(rt; "{USAGE}")?),
        Request::Play(script) => play(rt, script),
    }
}

fn main(rt: HostRuntime) -> ExitCode {
    match fulfil(&rt) {
        Ok(()) => ExitCode::SUCCESS,
        // There is nothing that a user could mend.
        Err(Fault::Host(_)) => ExitCode::FAILURE,
        Err(fault) => {
            let _ = eprintln!(rt; "jakuvyre: {fault}");
            ExitCode::FAILURE
        }
    }
}
