//! Making an old store go on once it was read: it is brought over.

ghost use Rattle.std.specs.Prelude.{◌≡◌, ◌≢◌, ◌+◌, ◌-◌, ◌<◌, ◌^◌, true, false, Err, IfOk, IsOk, OnOk};
ghost use Rattle.frame_store.specs.declared.shapes.Form.TheVariants.{Moved};
ghost use Rattle.frame_store.specs.Layouts.{formed};
ghost use Rattle.frame_store.specs.Listed.{size_of};
ghost use Rattle.frame_store.specs.Stores.{IsRead};
ghost use Rattle.brick_state.specs.States.{booted, empty, live};
ghost use Rattle.brick_state.specs.Indexes.{state_of};
ghost use Rattle.brick_state.specs.Indexes as indexes;
ghost use Rattle.brick_store.specs.Blocks.{cached, resolved};
ghost use Rattle.brick_store.specs.BringingOver.{LiesIn};
ghost use Rattle.brick_store.specs.Ends.{end_of};
ghost use Rattle.brick_store.specs.Images.{limits_of};
ghost use Rattle.brick_store.specs.Lengths.{IsAppended};
ghost use Rattle.brick_store.specs.Openings.{StartsOver, opening_end};
ghost use Rattle.brick_store.specs.ReadStores.{IsFoldedFrom, KeepsOldState, old_state_of};
ghost use Rattle.brick_store.specs.Sizes.{boot_size, framed};
ghost use Rattle.brick_store.specs.Standing.{AllSlots, Leads, Standing};
ghost use Rattle.brick_store.specs.Steps.{IsNotFull, IsSettled};

use crate::bringing_over::{Brought, bring_over};
use crate::faults::{OpenFault, StoreFault};
use crate::readings::Folded;
use crate::rewrites::frame_of;
use crate::starts::append_count;
use crate::taking_up::{TakenUp, refusal_of};
use brick_state::{Index, Record};
use fab_base::Bytes;
use fab_disk::Disk;
use frame_store::{Frame, FrameList, FrameStore};
use stamp_store::Kept;
use std::alloc::Global;

/// Brings the store over that its frames of the old format make, and counts the opening. All faults but Disk come before the disk is
/// touched.
pub(crate) fn take_over<D: Disk>(
    alloc: Global,
    frames: &mut FrameStore<D>,
    folded: Folded,
) -> Result<TakenUp, OpenFault>
    requires folded { IsFoldedFrom D.Disk true frames.old folded }
    ensures standing { IfOk result (λ made. Standing D.tells D.seen D.may_leave frames.new made.index made.blocks made.zero) }
    ensures state { let st = old_state_of frames.old in
        IfOk result (λ made. resolved (cached frames.old.shape.block made.blocks) (state_of made.index) ≡ booted (st.boot + 1) st) }
    ensures listed { IsOk result → IsAppended false (live (old_state_of frames.old)) (size_of frames.old.frames) boot_size (size_of frames.new.frames) }
    ensures still_runs { IsOk result → frames.new.halted ≡ false }
    ensures shape { IsOk result → frames.new.shape ≡ formed Moved frames.old.shape }
    ensures starts { StartsOver D.Disk (old_state_of frames.old) frames.old frames.new.disk (opening_end result) }
    ensures boots { IsOk result → (old_state_of frames.old).boot < 2 ^ 32 - 1 }
    ensures worn { result ≡ Err OpenFault.Worn → (old_state_of frames.old).boot ≡ 2 ^ 32 - 1 }
    ensures a_store { result ≢ Err OpenFault.NotAStore }
{
    if folded.index.boot() == u32::MAX {
        return Err(OpenFault::Worn);
    }
    let zero = Bytes::from_vec(vec![in alloc; 0u8; folded.sizes.block as usize]?);
    let brought = bring_over(alloc, folded)?;
    let Brought {
        mut index,
        blocks,
        bytes,
        frames: listed,
    } = brought;
    match start_over(alloc, frames, &mut index, &bytes, listed) {
        Ok(()) => Ok(TakenUp {
            index,
            blocks,
            zero,
        }),
        Err(fault) => Err(refusal_of(fault)),
    }
}

/// Syncs the disk, brings the store over with these blocks and frames, and counts the opening. Memory is refused before the disk is
/// touched.
#[tactic(auto, unfolding(brick_state::specs::Folds::applied))]
fn start_over<D: Disk>(
    alloc: Global,
    frames: &mut FrameStore<D>,
    index: &mut Index,
    blocks: &[u8],
    listed: FrameList,
) -> Result<(), StoreFault>
    requires limits { indexes.limits_of index.old ≡ limits_of frames.old.shape }
    requires runs { frames.old.halted ≡ false }
    requires read { IsRead D.tells D.seen frames.old }
    requires keeps { KeepsOldState frames.old listed blocks.now (state_of index.old) }
    ensures made { OnOk result (state_of index.new ≡ booted ((state_of index.old).boot + 1) (state_of index.old)) }
    ensures limits { indexes.limits_of index.new ≡ indexes.limits_of index.old }
    ensures leads { OnOk result (Leads (limits_of frames.old.shape) frames.new.frames empty (state_of index.new)) }
    ensures listed { OnOk result (size_of frames.new.frames ≡ size_of listed + framed boot_size) }
    ensures lie { D.tells → OnOk result (AllSlots (LiesIn (formed Moved frames.old.shape) blocks.now (D.seen frames.new.disk)) (state_of index.old)) }
    ensures shape { OnOk result (frames.new.shape ≡ formed Moved frames.old.shape) }
    ensures runs { OnOk result (frames.new.halted ≡ false) }
    ensures settled { D.tells → OnOk result (IsSettled D.Disk frames.new) }
    ensures starts { StartsOver D.Disk (old_state_of frames.old) frames.old frames.new.disk (end_of result) }
    ensures fault { IsNotFull result }
{
    let item = Record::Kept(Kept::Boot(index.boot() + 1));
    let frame = frame_of(alloc, &item)?;
    frames.reserve(&listed, frame.body.len())?;
    frames.sync()?;
    frames.bring_over(blocks, listed)?;
    append_count(frames, index, &item, frame)
}
