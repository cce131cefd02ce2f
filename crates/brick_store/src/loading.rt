//! Reading the blocks of a store into memory.

ghost use Rattle.std.specs.Prelude.{◌≡◌, ◌≢◌, ◌-◌, ◌^◌, false, Err, IfOk, IsOk};
ghost use Rattle.fab_disk.specs.Disk.{IsUntouched, Kept};
ghost use Rattle.fab_disk.specs.Plan.{KeepsPlan};
ghost use Rattle.frame_store.specs.Stores.{IsSame};
ghost use Rattle.brick_state.specs.Indexes.{state_of};
ghost use Rattle.brick_state.specs.Indexes as indexes;
ghost use Rattle.brick_store.specs.Openings.{IsLoaded};
ghost use Rattle.brick_store.specs.ReadStores.{IsFoldedFrom};

use crate::block_tables::BlockTable;
use crate::caches::read_blocks;
use crate::faults::OpenFault;
use crate::readings::Folded;
use fab_base::Bytes;
use fab_disk::Disk;
use frame_store::FrameStore;
use std::alloc::Global;

/// Reads the blocks of what a store's list made. NotAStore only where the file changed since its frames were read.
pub(crate) fn load<D: Disk>(
    alloc: Global,
    frames: &mut FrameStore<D>,
    folded: &Folded,
) -> Result<BlockTable, OpenFault>
    requires folded { IsFoldedFrom D.Disk false frames.old folded.now }
    ensures loaded { IfOk result (λ blocks. IsLoaded D.tells frames.old.shape frames.old.frames (D.seen frames.old.disk)
        (indexes.limits_of folded.now.index) (state_of folded.now.index) folded.now.whole blocks) }
    ensures same { IsSame frames.old frames.new }
    ensures untouched { IsUntouched D.seen D.may_leave D.moment D.left_since frames.old.disk frames.new.disk }
    ensures plan { KeepsPlan D.plan D.unlisted frames.old.disk frames.new.disk (result ≡ Err OpenFault.Disk) }
    ensures cause { Kept (D.faults frames.old.disk) (D.faults frames.new.disk) (D.sound frames.old.disk) (D.sound frames.new.disk)
        (result ≡ Err OpenFault.Disk) }
    ensures certain { D.certain frames.new.disk ≡ D.certain frames.old.disk }
    ensures still_runs { IsOk result → frames.new.halted ≡ false }
    ensures worn { result ≡ Err OpenFault.Worn → (state_of folded.now.index).boot ≡ 2 ^ 32 - 1 }
    ensures no_slot { D.tells → result ≢ Err OpenFault.NotAStore }
{
    if folded.index.boot() == 4294967295 {
        return Err(OpenFault::Worn);
    }
    read_blocks(alloc, frames, &folded.index, folded.sizes.block)
}
