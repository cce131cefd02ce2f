//! What a program is started with.

use std::env::Env;
use std::io::ErrorKind;
use std::{env, io};

/// The status of a program that finds no memory.
pub const NO_MEMORY: u8 = 7;

/// The words of the command line behind the program's name. `InvalidData` comes where one is no text.
fn words(rt: &(impl Env + AllocGlobal)) -> io::Result<Vec<String>> {
    let mut words = Vec::new(rt.alloc());
    for word in env::args(rt)?.skip(1) {
        words.push(word)?;
    }
    Ok(words)
}

/// The words of the command line behind the program's name; no words where one is no text, since that makes a faulty command
/// line as the empty one is. None where there is no memory.
pub fn command_words(rt: &(impl Env + AllocGlobal)) -> Option<Vec<String>> {
    match words(rt) {
        Ok(words) => Some(words),
        Err(error) if error.kind() == ErrorKind::InvalidData => Some(Vec::new(rt.alloc())),
        Err(_) => None,
    }
}
