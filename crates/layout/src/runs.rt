//! The stripes that segments have taken, as runs of places: each group has places of its own, one a stripe.
//!
//! One ordered map, for all groups, holds the end of each run at its start, so that a segment need be held against one run
//! alone.

ghost use Rattle.std.specs.Prelude.{◌≡◌, IfOk};
ghost use Rattle.std.specs.List.{AllByRecursion};
ghost use Rattle.layout.specs.Runs.{start_of, HasOwnPlaces, TellsTaken, Takes, TakesAll};

use fab_base::{NoMem, Segment};
use std::collections::BTreeMap;

// The place of the first stripe of a segment.
fn start_of(segment: Segment) -> u64
    ensures { result ≡ start_of segment }
{
    u64::from(segment.group.0) * 131_072 + u64::from(segment.first.0)
}

// Whether a place from `start` up to before `end` is taken. Of the runs that start before `end`, the last is the one that ends
// last, since no two have a place in common.
fn is_taken(ends: &BTreeMap<u64, u64>, start: u64, end: u64) -> bool
    ensures { TellsTaken ends.now start end result }
{
    match ends.range(..end).next_back() {
        Some((_, last)) => start < *last,
        None => false,
    }
}

// Takes the places of a segment. False where one of them was taken.
fn take_one(ends: &mut BTreeMap<u64, u64>, segment: Segment) -> Result<bool, NoMem>
    requires { HasOwnPlaces segment }
    ensures { IfOk result (λ free. Takes ends.old ends.new segment free) }
{
    let start = start_of(segment);
    let end = start + u64::from(segment.stripes);
    if is_taken(ends, start, end) {
        return Ok(false);
    }
    ends.insert(start, end)?;
    Ok(true)
}

/// Takes the stripes of some segments, one segment after another. False where one of the stripes was taken.
pub fn take_all(ends: &mut BTreeMap<u64, u64>, segments: &[Segment]) -> Result<bool, NoMem>
    requires { AllByRecursion HasOwnPlaces segments.now }
    ensures { IfOk result (λ free. TakesAll ends.old ends.new segments.now free) }
{
    for segment in segments {
        if !take_one(ends, *segment)? {
            return Ok(false);
        }
    }
    Ok(true)
}
