//! A row: the bytes of a datagram; where its fields begin; and each byte from the sixth on with each of the values 00, 01, 7F
//! and FF that makes it malformed, as the byte's place, the value and the place that is told; in hex digits.

ghost use Rattle.std.specs.Prelude.{◌<◌, length};

use crate::differences::Difference;
use fab_wire::{WireFault, decode, encode};
use std::alloc::Global;

/// Compares what the codec says of a row's datagram, cut short anywhere, with each byte changed, and with a byte more.
pub fn compare(alloc: Global, line: &str) -> Result<(), Difference> {
    let (message, rest) = line.split_once(' ').ok_or(Difference::NoRow)?;
    let (starts, faults) = rest.split_once(' ').ok_or(Difference::NoRow)?;
    let bytes = hex::decode(alloc, message)?;
    let starts = hex::decode(alloc, starts)?;
    let faults = hex::decode(alloc, faults)?;
    if malformed_at(alloc, &bytes)?.is_some() {
        return Err(Difference::Unread);
    }
    compare_cuts(alloc, &bytes, &starts)?;
    for place in 0..bytes.len() {
        compare_changes(alloc, &bytes, &faults, place)?;
    }
    compare_longer(alloc, &bytes)
}

// Where the bytes are malformed; None where they spell a message, which spells them again.
fn malformed_at(alloc: Global, bytes: &[u8]) -> Result<Option<usize>, Difference> {
    match decode(alloc, bytes) {
        Ok(message) => {
            let again = encode(alloc, &message)?;
            if again.as_slice() == bytes {
                Ok(None)
            } else {
                Err(Difference::Spelling)
            }
        }
        Err(WireFault::Malformed { at }) => Ok(Some(at)),
        Err(WireFault::NoMemory) => Err(Difference::NoMemory),
    }
}

// Each datagram that is cut short is malformed at the last field that begins within it.
fn compare_cuts(alloc: Global, bytes: &[u8], starts: &[u8]) -> Result<(), Difference> {
    for length in 0..bytes.len() {
        let within = starts.iter().map(|start| usize::from(*start));
        let told = within.filter(|start| *start <= length).last();
        if malformed_at(alloc, &bytes[..length])? != told {
            return Err(Difference::Cut(length));
        }
    }
    Ok(())
}

// The datagram with another byte at this place is malformed where the row tells.
fn compare_changes(
    alloc: Global,
    bytes: &[u8],
    faults: &[u8],
    place: usize,
) -> Result<(), Difference>
    requires { place < length bytes.now }
{
    for value in [0, 1, 0x7f, 0xff] {
        let mut changed = Vec::from_slice(alloc, bytes)?;
        changed[place] = value;
        if malformed_at(alloc, &changed)? != changed_at(faults, place, value) {
            return Err(Difference::Changed { place, value });
        }
    }
    Ok(())
}

// Where a datagram is malformed whose byte at this place has this value: the four bytes FABW are one field, and then the version.
fn changed_at(faults: &[u8], place: usize, value: u8) -> Option<usize> {
    if place < 4 {
        return Some(0);
    }
    if place == 4 && value != 1 {
        return Some(4);
    }
    for fault in faults.chunks_exact(3) {
        if let [changed, to, at] = fault
            && usize::from(*changed) == place
            && *to == value
        {
            return Some(usize::from(*at));
        }
    }
    None
}

// A byte left over is malformed.
fn compare_longer(alloc: Global, bytes: &[u8]) -> Result<(), Difference> {
    let mut longer = Vec::from_slice(alloc, bytes)?;
    longer.push(0)?;
    if malformed_at(alloc, &longer)? == Some(bytes.len()) {
        Ok(())
    } else {
        Err(Difference::Longer)
    }
}
