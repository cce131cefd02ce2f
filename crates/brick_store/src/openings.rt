//! Opening a store.

ghost use Rattle.std.specs.Prelude.{◌≡◌, ◌≢◌, ◌+◌, ◌-◌, ◌<◌, ◌≤◌, ◌^◌, true, false, IfOk, IfErr};
ghost use Rattle.fab_disk.specs.Changing.{Stands};
ghost use Rattle.frame_store.specs.declared.shapes.Form.TheVariants.{New};
ghost use Rattle.frame_store.specs.Layouts.{shape_of, formed};
ghost use Rattle.frame_store.specs.Listed.{size_of};
ghost use Rattle.frame_store.specs.Images.{IsNoStore};
ghost use Rattle.brick_state.specs.States.{booted, live};
ghost use Rattle.brick_store.specs.Lengths.{IsAppended};
ghost use Rattle.brick_store.specs.Sizes.{boot_size};
ghost use Rattle.brick_store.specs.Images.{StandsFor};
ghost use Rattle.brick_store.specs.Openings.{disk_in, end_in, IsCounted, IsListedOnOpening, IsWornOut, Opens, StartsOver};
ghost use Rattle.brick_store.specs.ReadStores.{IsFoldedFrom, old_state_of};

use crate::faults::OpenFault;
use crate::readings::Folded;
use crate::starts_over::take_over;
use crate::stores::BrickStore;
use crate::taking_up::take_up;
use fab_base::BrickId;
use fab_disk::Disk;
use frame_store::FrameStore;
use std::alloc::Global;

/// Opens the store that a disk holds for a brick: its count of openings is one greater, and nothing else is changed.
/// It makes five calls of `write_at` and `sync`, and seven more where the list of frames ended early or is full. A store of the old
/// format is brought over to the new one: then it makes thirteen.
///
/// # Errors
/// Each hands the disk back. [`OpenFault::NotAStore`]: neither header is open. [`OpenFault::Worn`]: the store was opened
/// 2^32 - 1 times. [`OpenFault::Disk`]: the disk failed. [`OpenFault::NoMemory`]: memory was refused, before the
/// disk changed.
pub fn open_store<D: Disk>(
    alloc: Global,
    disk: D,
    me: BrickId,
    block: u16,
    records: u32,
) -> Result<BrickStore<D>, (OpenFault, D)>
    requires block_range { (1 ≤ block) × (block ≤ 4096) }
    requires records_range { (1 ≤ records) × (records ≤ 1048576) }
    ensures shape { IfOk result (λ store. store.shape ≡ shape_of me.0 block records) }
    ensures runs { IfOk result (λ store. store.halted ≡ false) }
    // There was a store that was not worn, and it is the one that was counted.
    ensures found { IfOk result (λ store. D.tells → IsCounted (shape_of me.0 block records) (D.seen disk) store.state) }
    ensures stands { IfOk result (λ store. D.tells → Stands D.Disk (StandsFor store.shape store.state) store.disk) }
    // Its list is the one that the disk held, with the count appended.
    ensures listed { IfOk result (λ store. D.tells → IsListedOnOpening store.shape (D.seen disk) (live store.state) store.listed) }
    // What each moment leaves, how many calls it makes, and what is left where it is cut short.
    ensures opens { Opens D.Disk (shape_of me.0 block records) disk (disk_in result) (end_in result) }
    ensures not_a_store { IfErr result (λ e. e.0 ≡ OpenFault.NotAStore → D.tells → IsNoStore (shape_of me.0 block records) (D.seen disk)) }
    ensures worn { IfErr result (λ e. e.0 ≡ OpenFault.Worn → D.tells → IsWornOut (shape_of me.0 block records) (D.seen disk)) }
{
    let mut folded = match Folded::new(alloc, block, records) {
        Ok(folded) => folded,
        Err(refused) => return Err((OpenFault::from(refused), disk)),
    };
    let opened = frame_store::open_store(alloc, disk, me.0, block, records, &mut folded);
    let mut frames = match opened {
        Ok(frames) => frames,
        Err((fault, disk)) => return Err((OpenFault::from(fault), disk)),
    };
    if frames.is_old() {
        return open_over(alloc, frames, folded);
    }
    match take_up(alloc, &mut frames, folded) {
        Ok(taken) => Ok(BrickStore {
            alloc,
            frames,
            index: taken.index,
            blocks: taken.blocks,
            zero: taken.zero,
        }),
        Err(fault) => Err((fault, frames.into_disk())),
    }
}

/// Brings the store over that a list of the old format made, and counts the opening.
fn open_over<D: Disk>(
    alloc: Global,
    frames: FrameStore<D>,
    folded: Folded,
) -> Result<BrickStore<D>, (OpenFault, D)>
    requires folded { IsFoldedFrom D.Disk true frames folded }
    ensures shape { IfOk result (λ store. store.shape ≡ formed New frames.shape) }
    ensures runs { IfOk result (λ store. store.halted ≡ false) }
    ensures state { let st = old_state_of frames in IfOk result (λ store. store.state ≡ booted (st.boot + 1) st) }
    ensures boots { IfOk result (λ store. (old_state_of frames).boot < 2 ^ 32 - 1) }
    ensures stands { IfOk result (λ store. D.tells → Stands D.Disk (StandsFor store.shape store.state) store.disk) }
    ensures listed { IfOk result (λ store. IsAppended false (live (old_state_of frames)) (size_of frames.frames) boot_size store.listed) }
    ensures starts { StartsOver D.Disk (old_state_of frames) frames (disk_in result) (end_in result) }
    ensures worn { IfErr result (λ e. e.0 ≡ OpenFault.Worn → (old_state_of frames).boot ≡ 2 ^ 32 - 1) }
    ensures a_store { IfErr result (λ e. e.0 ≢ OpenFault.NotAStore) }
{
    let mut frames = frames;
    match take_over(alloc, &mut frames, folded) {
        Ok(taken) => Ok(BrickStore {
            alloc,
            frames,
            index: taken.index,
            blocks: taken.blocks,
            zero: taken.zero,
        }),
        Err(fault) => Err((fault, frames.into_disk())),
    }
}
