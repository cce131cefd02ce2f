//! A schedule that writes a stripe again and again over bricks with little room.

use std::alloc::{AllocError, Global};

/// The layout of bricks with room for an order stamp and three versions.
const LAYOUT: &str =
    "block = 1\nbricks = 3\nrecords = 4\n[[group]]\nm = 1\nmembers = [0, 1, 2]\nstripes = 1\n---\n";

/// How many messages a write sends that runs alone at all three bricks. By the last three each brick drops what is older.
const MESSAGES: u64 = 15;

/// A write of this number that runs alone, after which all bricks drop what is older.
fn write_alone(alloc: Global, number: u64) -> Result<String, AllocError> {
    let byte = number % 256;
    let last = number.saturating_mul(MESSAGES);
    let (first, next) = (last.saturating_sub(2), last.saturating_sub(1));
    format!(in alloc;
        "writeall 0 0 0 {byte:02x}\ncalm {number} 0 1 2\ndeliver {first}\ndeliver {next}\ndeliver {last}\n"
    )
}

/// So many writes, one after another.
pub fn over_little_room(alloc: Global, count: u64) -> Result<Vec<u8>, AllocError> {
    let mut input = String::from_str(alloc, LAYOUT)?;
    for number in 1..=count {
        input.push_str(write_alone(alloc, number)?.as_str())?;
    }
    Ok(input.into_bytes())
}
