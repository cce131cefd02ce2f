//! Making a store go on once it was read.

ghost use Rattle.std.specs.Prelude.{◌≡◌, ◌≢◌, ◌+◌, ◌-◌, ◌<◌, ◌^◌, true, false, Some, None, IsSome, Err, OnOk, length};
ghost use Rattle.frame_store.specs.Images.{KeepsSlots};
ghost use Rattle.frame_store.specs.Listed.{Fits, size_of};
ghost use Rattle.brick_state.specs.States.{empty, booted, live};
ghost use Rattle.brick_state.specs.Folds.{applied};
ghost use Rattle.brick_state.specs.Indexes.{state_of, IsReady};
ghost use Rattle.brick_state.specs.Indexes as indexes;
ghost use Rattle.brick_store.specs.Images.{record_of, limits_of};
ghost use Rattle.brick_store.specs.Calls.{append_calls, is_appendable};
ghost use Rattle.brick_store.specs.Lengths.{IsAppended};
ghost use Rattle.brick_store.specs.Sizes.{boot_size, framed};
ghost use Rattle.brick_store.specs.Standing.{Leads};
ghost use Rattle.brick_store.specs.Ends.{end_of, StateChange};
ghost use Rattle.brick_store.specs.Steps.{IsSettled, Step, CanChange, IsReadAs, changed, HasAppendRoom, IsNotFull};
ghost use Rattle.brick_store.specs.Openings.{Starts};

use crate::appends::append_frame;
use crate::faults::StoreFault;
use crate::fresh_lists::make_appendable;
use crate::index_steps::apply;
use crate::rewrites::frame_of;
use brick_state::{Index, Record};
use fab_disk::Disk;
use frame_store::{Frame, FrameStore};
use stamp_store::Kept;
use std::alloc::Global;

// Appends the frame of a record that can be, for which there is room in the half and in memory, and makes its change.
pub(crate) fn append_count<D: Disk>(
    frames: &mut FrameStore<D>,
    index: &mut Index,
    item: &Record,
    frame: Frame,
) -> Result<(), StoreFault>
    requires may { CanChange D.Disk (state_of index.old) frames.old }
    requires limits { indexes.limits_of index.old ≡ limits_of frames.old.shape }
    requires read { record_of frame ≡ Some item.now }
    requires can { IsSome (applied (indexes.limits_of index.old) item.now (state_of index.old)) }
    requires ready { IsReady index.old item.now }
    requires fits { Fits frames.old.shape frames.old.frames (length frame.body) }
    requires room { HasAppendRoom D.has_room frames.old (length frame.body) }
    ensures step { Step D.Disk (state_of index.old) (changed (indexes.limits_of index.old) item.now (state_of index.old))
        (λ bytes. bytes ≡ size_of frames.old.frames + framed (length frame.body)) frames.old frames.new result }
    ensures change { StateChange D.Disk append_calls frames.old None (state_of index.old)
        (changed (indexes.limits_of index.old) item.now (state_of index.old)) frames.new.disk (end_of result) }
    ensures made { OnOk result (state_of index.new ≡ changed (indexes.limits_of index.old) item.now (state_of index.old)) }
    ensures limits { indexes.limits_of index.new ≡ indexes.limits_of index.old }
    ensures no_memory { result ≢ Err StoreFault.NoMemory }
    ensures fault { IsNotFull result }
{
    append_frame(frames, frame, None)?;
    apply(index, item);
    Ok(())
}

/// Syncs the disk, writes a list that ended early or is full anew, and counts the opening. Memory is refused before the disk is
/// touched.
#[tactic(auto, unfolding(brick_state::specs::Folds::applied))]
pub fn start<D: Disk>(
    alloc: Global,
    frames: &mut FrameStore<D>,
    index: &mut Index,
    whole: bool,
) -> Result<(), StoreFault>
    requires held { IsReadAs D.Disk (indexes.limits_of index.old) (state_of index.old) frames.old }
    requires whole { whole ≡ true → Leads (limits_of frames.old.shape) frames.old.frames empty (state_of index.old) }
    requires boots { (state_of index.old).boot < 2 ^ 32 - 1 }
    ensures made { OnOk result (state_of index.new ≡ booted ((state_of index.old).boot + 1) (state_of index.old)) }
    ensures limits { indexes.limits_of index.new ≡ indexes.limits_of index.old }
    ensures leads { OnOk result (Leads (limits_of frames.old.shape) frames.new.frames empty (state_of index.new)) }
    ensures listed { OnOk result (IsAppended (is_appendable whole frames.old boot_size) (live (state_of index.old)) (size_of frames.old.frames) boot_size
        (size_of frames.new.frames)) }
    ensures shape { frames.new.shape ≡ frames.old.shape }
    ensures runs { OnOk result (frames.new.halted ≡ false) }
    ensures settled { D.tells → OnOk result (IsSettled D.Disk frames.new) }
    ensures slots { D.tells → OnOk result (KeepsSlots frames.old.shape None (D.seen frames.old.disk) (D.seen frames.new.disk)) }
    ensures starts { Starts D.Disk whole (state_of index.old) frames.old frames.new.disk (end_of result) }
    ensures fault { IsNotFull result }
{
    let item = Record::Kept(Kept::Boot(index.boot() + 1));
    let frame = frame_of(alloc, &item)?;
    make_appendable(alloc, frames, index, whole, frame.body.len())?;
    append_count(frames, index, &item, frame)
}
