//! What a trace tells where a call of a disk is cut short or fails.

use std::alloc::{AllocError, Global};

/// The word whose place a fault takes.
const PLACE: &str = "FAULT";

/// An input with a fault in its place.
pub fn with_fault(alloc: Global, input: &str, fault: &str) -> Result<Vec<u8>, AllocError> {
    let (front, behind) = input.split_once(PLACE).unwrap_or((input, ""));
    Ok(format!(in alloc; "{front}{fault}{behind}")?.into_bytes())
}

/// Whether the lines of a trace that begin with spaces and name no message are these, with `; ` between two of them.
pub fn tells(trace: &str, lines: &str) -> bool {
    let mut wanted = lines.split("; ");
    for line in trace.lines() {
        if line.starts_with(' ')
            && !line.contains('#')
            && wanted.next() != Some(line.trim_start())
        {
            return false;
        }
    }
    wanted.next().is_none()
}
