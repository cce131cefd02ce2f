//! The frames of records.

ghost use Rattle.std.specs.Prelude.{◌≡◌, ◌+◌, ◌≤◌, Some, map, length, IfOk};
ghost use Rattle.std.specs.List.{AllByRecursion};
ghost use Rattle.frame_store.specs.Listed.{size_of};
ghost use Rattle.brick_state.specs.States.{live};
ghost use Rattle.brick_state.specs.Indexes.{state_of, limits_of};
ghost use Rattle.brick_state.specs.KeptStates.{IsKeptState};
ghost use Rattle.brick_state.specs.Rewrites.{live_records};
ghost use Rattle.brick_store.specs.Images.{record_of};
ghost use Rattle.brick_store.specs.Standing.{GroupHasMembers};
ghost use Rattle.brick_store.specs.Steps.{RecordHasMembers};
ghost use Rattle.brick_store.specs.Sizes.{body_size, most, most_listed, most_of};

use brick_state::{Index, Record};
use fab_base::NoMem;
use frame_store::{Frame, FrameList};
use std::alloc::Global;

/// How many bytes the frame of a version has.
pub(crate) const LISTED: usize = 41;

/// The frame of a record.
pub fn frame_of(alloc: Global, item: &Record) -> Result<Frame, NoMem>
    requires { RecordHasMembers item.now }
    ensures read { IfOk result (λ frame. record_of frame ≡ Some item.now) }
    ensures length { IfOk result (λ frame. length frame.body ≡ body_size item.now) }
    ensures size { IfOk result (λ frame. 6 + length frame.body ≤ most item.now) }
{
    match item {
        Record::Kept(kept) => Ok(Frame {
            kind: kept.kind(),
            body: kept.body(alloc)?,
        }),
        Record::Logged(logged) => Ok(Frame {
            kind: logged.kind(),
            body: logged.body(alloc)?,
        }),
    }
}

/// The frames of the records that bring back what an index keeps.
pub fn live_frames(alloc: Global, index: &Index) -> Result<FrameList, NoMem>
    requires kept { IsKeptState (limits_of index.now) (state_of index.now) }
    requires members { AllByRecursion GroupHasMembers (state_of index.now).groups }
    ensures read { IfOk result (λ frames. map record_of frames ≡ map Some (live_records (state_of index.now))) }
    ensures size { IfOk result (λ frames. size_of frames ≤ most_listed (live (state_of index.now))) }
{
    let records = index.records()?;
    frames_of(alloc, &records)
}

fn frames_of(alloc: Global, records: &[Record]) -> Result<FrameList, NoMem>
    requires { AllByRecursion RecordHasMembers records.now }
    ensures read { IfOk result (λ frames. map record_of frames ≡ map Some records.now) }
    ensures size { IfOk result (λ frames. size_of frames ≤ most_of records.now) }
{
    let mut frames = FrameList::with_room(alloc, records.len().saturating_mul(LISTED))?;
    for item in records {
        let frame = frame_of(alloc, item)?;
        frames.push(&frame)?;
    }
    Ok(frames)
}
