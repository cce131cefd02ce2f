//! `trace`: shows a run of a layout and a schedule, the input of `replay run`, as text or as a picture.
#![tactic(auto)]

use clap::{Arg, Command};
use fab_io::{NO_MEMORY, StdSink, StdSource, command_words};
use std::alloc::{AllocError, Global};
use std::io;
use std::process::ExitCode;
use trace::trace;

/// The command line.
fn command<'a>(alloc: Global) -> Result<Command<'a>, AllocError> {
    let form = Arg::new(alloc, "form").required(true).help(
        "text: what each line did, and what all left; svg: the first 2,000 lines, drawn",
    );
    Command::new(alloc, "trace")
        .version("1.0")
        .about("Shows the run of a layout and a schedule, read from standard input")
        .no_binary_name(true)
        .arg(form)
}

/// Shows the run of standard input, and answers the exit status.
fn show(rt: &HostRuntime, words: &[String]) -> u8 {
    let mut source = StdSource::new(rt.reader());
    let mut sink = StdSink::new(io::writer(rt));
    let mut errors = StdSink::new(rt.stderr().lock());
    trace(rt.alloc(), words, &mut source, &mut sink, &mut errors)
}

/// Runs the program, and answers its exit status.
fn run(rt: &HostRuntime) -> io::Result<u8> {
    let Some(words) = command_words(rt) else {
        return Ok(NO_MEMORY);
    };
    match command(rt.alloc())?.try_get_matches_from(words.as_slice()) {
        Ok(_) => Ok(show(rt, words.as_slice())),
        Err(error) => {
            error.print(rt)?;
            Ok(error.exit_code() as u8)
        }
    }
}

fn main(rt: HostRuntime) -> ExitCode {
    ExitCode::from(run(&rt).unwrap_or(NO_MEMORY))
}
