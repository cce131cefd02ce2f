//! `brick format` makes the store of a brick on a file, `brick serve` has the brick serve over it, a UDP port and the clock, `brick local` runs
//! the commands of standard input over all bricks of a layout, and `brick nbd` lets a client use a volume of them as its disk.
#![tactic(auto)]

use brick::brick;
use fab_host::OsHost;
use fab_io::{BufferedSource, NO_MEMORY, StdSink, command_words};
use std::io::{self, BufReader};
use std::process::ExitCode;

fn main(rt: HostRuntime) -> ExitCode {
    let mut out = StdSink::new(io::writer(&rt));
    let Ok(input) = BufReader::with_capacity(rt.alloc(), READ_AHEAD, rt.reader()) else {
        return ExitCode::from(NO_MEMORY);
    };
    let Ok(mut host) = OsHost::new(rt.alloc(), &rt, BufferedSource::new(input)) else {
        return ExitCode::from(NO_MEMORY);
    };
    let status = match command_words(&rt) {
        Some(words) => brick(rt.alloc(), words.as_slice(), &mut host, &mut out),
        None => NO_MEMORY,
    };
    ExitCode::from(status)
}

/// How many bytes of standard input are read at once: as many as a command of `brick local` may have. So more of it may be
/// taken than the commands that are run.
const READ_AHEAD: usize = 70_000;
