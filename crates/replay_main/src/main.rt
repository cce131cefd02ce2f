//! `replay run`: runs a layout and a schedule from standard input, and prints what they mark. `replay make`: draws a schedule from a seed, runs it, and
//! prints what sums it up. `replay audit`: checks such a print, of whatever origin, behind its layout.
#![tactic(auto)]

use fab_io::{NO_MEMORY, StdSink, StdSource, command_words};
use replay::replay;
use std::io;
use std::process::ExitCode;

fn main(rt: HostRuntime) -> ExitCode {
    let mut source = StdSource::new(rt.reader());
    let mut sink = StdSink::new(io::writer(&rt));
    let status = match command_words(&rt) {
        Some(words) => replay(rt.alloc(), words.as_slice(), &mut source, &mut sink),
        None => NO_MEMORY,
    };
    ExitCode::from(status)
}
