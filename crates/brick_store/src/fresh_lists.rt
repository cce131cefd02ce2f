//! A store that was read is made ready for the count of its opening: a list of frames that ended early, or that has no room for
//! one more, is written anew before anything is appended to it.

ghost use Rattle.std.specs.Prelude.{◌≡◌, ◌≤◌, if◌then◌else◌, true, None, IsTrue, OnOk, false};
ghost use Rattle.frame_store.specs.Layouts.{is_old};
ghost use Rattle.frame_store.specs.Images.{KeepsSlots};
ghost use Rattle.frame_store.specs.Listed.{Fits, size_of};
ghost use Rattle.brick_state.specs.States.{empty, live};
ghost use Rattle.brick_state.specs.Indexes.{state_of};
ghost use Rattle.brick_state.specs.Indexes as indexes;
ghost use Rattle.brick_store.specs.Images.{limits_of};
ghost use Rattle.brick_store.specs.Standing.{Leads};
ghost use Rattle.brick_store.specs.Calls.{is_appendable};
ghost use Rattle.brick_store.specs.Lengths.{HasMadeRoom};
ghost use Rattle.brick_store.specs.Sizes.{longest_frame, most_listed};
ghost use Rattle.brick_store.specs.Ends.{end_of};
ghost use Rattle.brick_store.specs.Steps.{CanChange, IsReadAs, HasAppendRoom, IsNotFull};
ghost use Rattle.brick_store.specs.Openings.{Readies};

use crate::faults::StoreFault;
use crate::rewrites::live_frames;
use brick_state::Index;
use fab_disk::Disk;
use frame_store::{FrameList, FrameStore};
use std::alloc::Global;

/// Syncs the disk and puts the frames of what the index keeps in the place of the list. At each moment each image opens as frames
/// of this state, where a closed gate stood after the list, or was allowed before the sync.
fn renew<D: Disk>(
    alloc: Global,
    frames: &mut FrameStore<D>,
    index: &Index,
    body: usize,
) -> Result<(), StoreFault>
    requires held { IsReadAs D.Disk (indexes.limits_of index.now) (state_of index.now) frames.old }
    requires small { body ≤ longest_frame }
    ensures may { OnOk result (CanChange D.Disk (state_of index.now) frames.new) }
    ensures shape { frames.new.shape ≡ frames.old.shape }
    ensures slots { D.tells → OnOk result (KeepsSlots frames.old.shape None (D.seen frames.old.disk) (D.seen frames.new.disk)) }
    ensures fits { OnOk result (Fits frames.new.shape frames.new.frames body) }
    ensures listed { OnOk result (size_of frames.new.frames ≤ most_listed (live (state_of index.now))) }
    ensures room { OnOk result (HasAppendRoom D.has_room frames.new body) }
    ensures readies { Readies D.Disk 8 (state_of index.now) frames.old frames.new.disk (end_of result) }
    ensures fault { IsNotFull result }
{
    let live = live_frames(alloc, index)?;
    frames.reserve(&live, body)?;
    frames.sync()?;
    frames.rewrite(live)?;
    Ok(())
}

// Whether a list that was read can be appended to.
fn is_appendable<D: Disk>(frames: &FrameStore<D>, whole: bool, body: usize) -> bool
    requires new { is_old frames.now.shape ≡ false }
    ensures is { result ≡ is_appendable whole frames.now body }
    ensures whole { IsTrue result → whole ≡ true }
    ensures closed { IsTrue result → frames.now.closed ≡ true }
    ensures fits { IsTrue result → Fits frames.now.shape frames.now.frames body }
{
    whole && frames.is_closed() && frames.fits(body)
}

/// Makes a store that was read ready for one append of a frame with a body of this length: syncs the disk, and where the list of
/// frames ended early, or has no room for the frame, puts the frames of what the index keeps in its place. All memory for this
/// and for the append is taken before the disk is touched.
pub fn make_appendable<D: Disk>(
    alloc: Global,
    frames: &mut FrameStore<D>,
    index: &Index,
    whole: bool,
    body: usize,
) -> Result<(), StoreFault>
    requires held { IsReadAs D.Disk (indexes.limits_of index.now) (state_of index.now) frames.old }
    requires whole { whole ≡ true → Leads (limits_of frames.old.shape) frames.old.frames empty (state_of index.now) }
    requires small { body ≤ longest_frame }
    ensures may { OnOk result (CanChange D.Disk (state_of index.now) frames.new) }
    ensures shape { frames.new.shape ≡ frames.old.shape }
    ensures slots { D.tells → OnOk result (KeepsSlots frames.old.shape None (D.seen frames.old.disk) (D.seen frames.new.disk)) }
    ensures fits { OnOk result (Fits frames.new.shape frames.new.frames body) }
    ensures listed { OnOk result (HasMadeRoom (is_appendable whole frames.old body) (live (state_of index.now)) (size_of frames.old.frames)
        (size_of frames.new.frames)) }
    ensures room { OnOk result (HasAppendRoom D.has_room frames.new body) }
    ensures readies { Readies D.Disk (if is_appendable whole frames.old body then 1 else 8) (state_of index.now) frames.old frames.new.disk
        (end_of result) }
    ensures fault { IsNotFull result }
{
    if is_appendable(frames, whole, body) {
        let none = FrameList::new(alloc);
        frames.reserve(&none, body)?;
        frames.sync()?;
        return Ok(());
    }
    renew(alloc, frames, index, body)
}
