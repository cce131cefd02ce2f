//! Taking up the store that a list of frames makes.

ghost use Rattle.std.specs.Prelude.{◌≡◌, ◌≢◌, ◌+◌, ◌-◌, ◌<◌, ◌^◌, false, Err, IfOk, IsOk};
ghost use Rattle.frame_store.specs.Listed.{size_of};
ghost use Rattle.brick_state.specs.States.{booted, empty, live};
ghost use Rattle.brick_state.specs.Indexes.{state_of};
ghost use Rattle.brick_store.specs.Bricks.{start_fault_of};
ghost use Rattle.brick_store.specs.Calls.{is_appendable};
ghost use Rattle.brick_store.specs.Images.{limits_of};
ghost use Rattle.brick_store.specs.Lengths.{IsAppended};
ghost use Rattle.brick_store.specs.Sizes.{boot_size};
ghost use Rattle.brick_store.specs.Standing.{AllSlots, IsStored, Standing};
ghost use Rattle.brick_store.specs.Openings.{is_whole, found_in, Starts, opening_end};
ghost use Rattle.brick_store.specs.ReadStores.{IsFoldedFrom};

use crate::block_tables::BlockTable;
use crate::faults::{OpenFault, StoreFault};
use crate::loading::load;
use crate::readings::Folded;
use crate::starts::start;
use brick_state::Index;
use fab_base::Bytes;
use fab_disk::Disk;
use frame_store::FrameStore;
use std::alloc::Global;

// What an open store keeps in memory.
#[derive(Drop)]
pub(crate) struct TakenUp {
    pub(crate) index: Index,
    pub(crate) blocks: BlockTable,
    pub(crate) zero: Bytes,
}

// The fault of an opening whose start was refused: the disk failed, or memory was refused.
pub(crate) fn refusal_of(fault: StoreFault) -> OpenFault
    ensures { result ≡ start_fault_of fault }
{
    match fault {
        StoreFault::Disk => OpenFault::Disk,
        StoreFault::Full { .. } | StoreFault::Halted | StoreFault::NoMemory => OpenFault::NoMemory,
    }
}

/// Takes up the store that its frames make, with its blocks in memory, and counts the opening. NotAStore only where the file changed
/// since its frames were read. All faults but Disk come before the disk is touched.
pub(crate) fn take_up<D: Disk>(
    alloc: Global,
    frames: &mut FrameStore<D>,
    folded: Folded,
) -> Result<TakenUp, OpenFault>
    requires folded { IsFoldedFrom D.Disk false frames.old folded }
    ensures standing { IfOk result (λ made. Standing D.tells D.seen D.may_leave frames.new made.index made.blocks made.zero) }
    ensures state { IfOk result (λ made. state_of made.index ≡ booted ((found_in frames.old.shape frames.old.frames).boot + 1)
        (found_in frames.old.shape frames.old.frames)) }
    ensures stored { D.tells → IfOk result (λ made. AllSlots (IsStored frames.old.shape made.blocks (D.seen frames.old.disk))
        (found_in frames.old.shape frames.old.frames)) }
    ensures listed { IsOk result → IsAppended (is_appendable (is_whole (limits_of frames.old.shape) frames.old.frames empty) frames.old boot_size)
        (live (found_in frames.old.shape frames.old.frames)) (size_of frames.old.frames) boot_size (size_of frames.new.frames) }
    ensures still_runs { IsOk result → frames.new.halted ≡ false }
    ensures shape { frames.new.shape ≡ frames.old.shape }
    ensures starts { Starts D.Disk (is_whole (limits_of frames.old.shape) frames.old.frames empty) (found_in frames.old.shape frames.old.frames)
        frames.old frames.new.disk (opening_end result) }
    ensures boots { IsOk result → (found_in frames.old.shape frames.old.frames).boot < 2 ^ 32 - 1 }
    ensures worn { result ≡ Err OpenFault.Worn → (found_in frames.old.shape frames.old.frames).boot ≡ 2 ^ 32 - 1 }
    ensures a_store { D.tells → result ≢ Err OpenFault.NotAStore }
{
    let zero = Bytes::from_vec(vec![in alloc; 0u8; folded.sizes.block as usize]?);
    let blocks = load(alloc, frames, &folded)?;
    let Folded {
        mut index,
        whole,
        ..
    } = folded;
    match start(alloc, frames, &mut index, whole) {
        Ok(()) => Ok(TakenUp {
            index,
            blocks,
            zero,
        }),
        Err(fault) => Err(refusal_of(fault)),
    }
}
