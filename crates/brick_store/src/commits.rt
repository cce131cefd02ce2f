//! One change: its record is appended to the list of frames, and then it is made in the index.

ghost use Rattle.std.specs.Prelude.{◌≡◌, ◌⊎◌, ◌≤◌, None, IsSome, true, false, OnOk, OnErr, option_map};
ghost use Rattle.std.specs.List.{AllByRecursion};
ghost use Rattle.frame_store.specs.Listed.{Fits, size_of};
ghost use Rattle.brick_state.specs.States.{live};
ghost use Rattle.brick_state.specs.Indexes.{state_of, limits_of};
ghost use Rattle.brick_state.specs.Folds.{applied, is_full};
ghost use Rattle.brick_state.specs.KeptStates.{IsKeptState};
ghost use Rattle.brick_store.specs.Calls.{calls_with, has_room_for, version_calls};
ghost use Rattle.brick_store.specs.Ends.{end_of, StateChange};
ghost use Rattle.brick_store.specs.Lengths.{HasMadeRoom, IsAppended};
ghost use Rattle.brick_store.specs.Sizes.{body_size, longest_frame, most_listed};
ghost use Rattle.brick_store.specs.Standing.{GroupHasMembers};
ghost use Rattle.brick_store.specs.Steps.{RecordHasMembers, Step, CanCommit, changed, put_in, FitsSlot, HasAppendRoom, IsRefused};

use crate::appends::append_frame;
use crate::faults::StoreFault;
use crate::index_steps::apply;
use crate::rewrites::{frame_of, live_frames};
use brick_state::{Index, Record};
use fab_disk::Disk;
use frame_store::FrameStore;
use std::alloc::Global;

// Puts the frames of what the index keeps in the place of the list, with room in memory for one append.
fn rewrite<D: Disk>(
    alloc: Global,
    frames: &mut FrameStore<D>,
    index: &Index,
    body: usize,
) -> Result<(), StoreFault>
    requires store { CanCommit D.Disk (limits_of index.now) (state_of index.now) frames.old }
    requires small { body ≤ longest_frame }
    ensures step { Step D.Disk (state_of index.now) (state_of index.now) (λ bytes. bytes ≤ most_listed (live (state_of index.now)))
        frames.old frames.new result }
    ensures fits { OnOk result (Fits frames.new.shape frames.new.frames body) }
    ensures room { OnOk result (HasAppendRoom D.has_room frames.new body) }
    ensures change { StateChange D.Disk 7 frames.old None (state_of index.now) (state_of index.now)
        frames.new.disk (end_of result) }
{
    let live = live_frames(alloc, index)?;
    frames.reserve(&live, body)?;
    frames.rewrite(live)?;
    Ok(())
}

// Makes room in the half for a frame with a body of this length: where it does not fit, the list is rewritten. That always makes
// room, since there are at most as many live records as slots.
fn make_room<D: Disk>(
    alloc: Global,
    frames: &mut FrameStore<D>,
    index: &Index,
    body: usize,
) -> Result<(), StoreFault>
    requires store { CanCommit D.Disk (limits_of index.now) (state_of index.now) frames.old }
    requires small { body ≤ longest_frame }
    ensures step { Step D.Disk (state_of index.now) (state_of index.now)
        (HasMadeRoom (has_room_for frames.old.shape (size_of frames.old.frames) body) (live (state_of index.now)) (size_of frames.old.frames))
        frames.old frames.new result }
    ensures fits { OnOk result (Fits frames.new.shape frames.new.frames body) }
    ensures room { OnOk result ((frames.new ≡ frames.old) ⊎ HasAppendRoom D.has_room frames.new body) }
    ensures change { StateChange D.Disk (calls_with frames.old.shape (size_of frames.old.frames) body 0) frames.old None (state_of index.now) (state_of index.now)
        frames.new.disk (end_of result) }
{
    if frames.fits(body) {
        return Ok(());
    }
    rewrite(alloc, frames, index, body)
}

// Appends the frame of a record that can be, with a block in its slot where one is given.
fn append_record<D: Disk>(
    alloc: Global,
    frames: &mut FrameStore<D>,
    index: &Index,
    item: &Record,
    slot_block: Option<(u32, &[u8])>,
) -> Result<(), StoreFault>
    requires store { CanCommit D.Disk (limits_of index.now) (state_of index.now) frames.old }
    requires members { RecordHasMembers item.now }
    requires can { IsSome (applied (limits_of index.now) item.now (state_of index.now)) }
    requires slot { FitsSlot frames.old.shape (option_map (λ b. put_in b.0 b.1.now) slot_block) }
    ensures step { Step D.Disk (state_of index.now) (changed (limits_of index.now) item.now (state_of index.now))
        (IsAppended (has_room_for frames.old.shape (size_of frames.old.frames) (body_size item.now)) (live (state_of index.now))
        (size_of frames.old.frames) (body_size item.now)) frames.old frames.new result }
    ensures change { let put = option_map (λ b. put_in b.0 b.1.now) slot_block.entry in
        StateChange D.Disk (calls_with frames.old.shape (size_of frames.old.frames) (body_size item.now) (version_calls put)) frames.old put
        (state_of index.now) (changed (limits_of index.now) item.now (state_of index.now)) frames.new.disk (end_of result) }
{
    let frame = frame_of(alloc, item)?;
    make_room(alloc, frames, index, frame.body.len())?;
    append_frame(frames, frame, slot_block)?;
    Ok(())
}

/// Whether a change can be tried that adds a live record or not.
///
/// # Errors
/// [`StoreFault::Halted`]; [`StoreFault::Full`] for one that adds a record.
pub fn ready<D: Disk>(frames: &FrameStore<D>, index: &Index, adds: bool) -> Result<(), StoreFault>
    requires within { live (state_of index.now) ≤ (limits_of index.now).records }
    requires few { (limits_of index.now).records ≤ 1048576 }
    ensures runs { OnOk result (frames.now.halted ≡ false) }
    ensures free { OnOk result (adds ≡ true → is_full (limits_of index.now) (state_of index.now) ≡ false) }
    ensures refused { OnErr result (IsRefused frames.now.halted adds (limits_of index.now).records (live (state_of index.now)) result) }
{
    if frames.is_halted() {
        return Err(StoreFault::Halted);
    }
    if adds && index.is_full() {
        return Err(StoreFault::Full { live: index.live() });
    }
    Ok(())
}

/// Makes the change of a record that can be, with a block in its slot where one is given. It makes four calls of `write_at` and
/// `sync`, one more with a block, and seven more where the half has no room for the frame.
///
/// # Errors
/// [`StoreFault::Disk`]; [`StoreFault::NoMemory`], before the disk changed.
pub fn commit<D: Disk>(
    alloc: Global,
    frames: &mut FrameStore<D>,
    index: &mut Index,
    item: &Record,
    slot_block: Option<(u32, &[u8])>,
) -> Result<(), StoreFault>
    requires store { CanCommit D.Disk (limits_of index.old) (state_of index.old) frames.old }
    requires members { RecordHasMembers item.now }
    requires can { IsSome (applied (limits_of index.old) item.now (state_of index.old)) }
    requires slot { FitsSlot frames.old.shape (option_map (λ b. put_in b.0 b.1.now) slot_block) }
    ensures step { Step D.Disk (state_of index.old) (changed (limits_of index.old) item.now (state_of index.old))
        (IsAppended (has_room_for frames.old.shape (size_of frames.old.frames) (body_size item.now)) (live (state_of index.old))
        (size_of frames.old.frames) (body_size item.now)) frames.old frames.new result }
    ensures made { OnOk result (state_of index.new ≡ changed (limits_of index.old) item.now (state_of index.old)) }
    ensures not_made { OnErr result (state_of index.new ≡ state_of index.old) }
    ensures limits { limits_of index.new ≡ limits_of index.old }
    ensures change { let put = option_map (λ b. put_in b.0 b.1.now) slot_block.entry in
        StateChange D.Disk (calls_with frames.old.shape (size_of frames.old.frames) (body_size item.now) (version_calls put)) frames.old put
        (state_of index.old) (changed (limits_of index.old) item.now (state_of index.old)) frames.new.disk (end_of result) }
{
    index.reserve(item)?;
    append_record(alloc, frames, index, item, slot_block)?;
    apply(index, item);
    Ok(())
}
