//! Reads datagrams, a row each, with what an independent decoder told of them, and prints of each row `ok` or what differed.
#![tactic(auto)]

mod differences;
mod rows;

use std::io;

fn main(rt: HostRuntime) -> io::Result<()> {
    for line in rt.lines(rt.alloc()) {
        match rows::compare(rt.alloc(), line?.as_str()) {
            Ok(()) => println!(rt; "ok")?,
            Err(difference) => println!(rt; "{difference}")?,
        }
    }
    Ok(())
}
