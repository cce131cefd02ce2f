//! Reading the blocks of versions into memory.

ghost use Rattle.std.specs.Prelude.{◌≡◌, ◌≢◌, ◌<◌, ℕ, false, Err, IfOk, OnOk, IsOk, length};
ghost use Rattle.std.specs.List.{AllByRecursion, Contains};
ghost use Rattle.fab_disk.specs.Disk.{IsUntouched, Kept};
ghost use Rattle.fab_disk.specs.Plan.{KeepsPlan};
ghost use Rattle.frame_store.specs.Layouts.{is_old};
ghost use Rattle.frame_store.specs.Images.{HasSlot, block_in};
ghost use Rattle.frame_store.specs.Stores.{IsRead, IsSame};
ghost use Rattle.brick_state.specs.Indexes.{state_of, limits_of};
ghost use Rattle.brick_state.specs.KeptStates.{IsKeptState};
ghost use Rattle.brick_state.specs.Slots.{slots_of};
ghost use Rattle.brick_store.specs.Openings.{IsHeld, AreRead, IsInside};

use crate::block_tables::BlockTable;
use crate::faults::OpenFault;
use brick_state::Index;
use fab_base::Bytes;
use fab_disk::Disk;
use frame_store::FrameStore;
use std::alloc::Global;

// Reads the block in a slot. NotAStore where the file has no such slot.
fn read_block<D: Disk>(
    alloc: Global,
    frames: &mut FrameStore<D>,
    block: u16,
    slot: u32,
) -> Result<Bytes, OpenFault>
    requires block { block ≡ frames.old.shape.block }
    requires new { is_old frames.old.shape ≡ false }
    requires runs { frames.old.halted ≡ false }
    ensures has { IfOk result (λ bytes. HasSlot frames.old.shape frames.old.size slot) }
    ensures len { IfOk result (λ bytes. length bytes ≡ frames.old.shape.block) }
    ensures bytes { D.tells → IfOk result (λ bytes. bytes ≡ block_in frames.old.shape slot (D.seen frames.old.disk)) }
    ensures same { IsSame frames.old frames.new }
    ensures untouched { IsUntouched D.seen D.may_leave D.moment D.left_since frames.old.disk frames.new.disk }
    ensures certain { D.certain frames.new.disk ≡ D.certain frames.old.disk }
    ensures still_runs { IsOk result → frames.new.halted ≡ false }
    ensures no_slot { result ≡ Err OpenFault.NotAStore → HasSlot frames.old.shape frames.old.size slot → ⊥ }
    ensures not_worn { result ≢ Err OpenFault.Worn }
    ensures plan { KeepsPlan D.plan D.unlisted frames.old.disk frames.new.disk (result ≡ Err OpenFault.Disk) }
    ensures cause { Kept (D.faults frames.old.disk) (D.faults frames.new.disk) (D.sound frames.old.disk) (D.sound frames.new.disk)
        (result ≡ Err OpenFault.Disk) }
{
    if !frames.has_slot(slot) {
        return Err(OpenFault::NotAStore);
    }
    let mut bytes = vec![in alloc; 0u8; block as usize]?;
    frames.read_slot(slot, &mut bytes)?;
    Ok(Bytes::from_vec(bytes))
}

// Reads the block in a slot into memory, where a version names it.
fn hold_block<D: Disk>(
    alloc: Global,
    frames: &mut FrameStore<D>,
    index: &Index,
    blocks: &mut BlockTable,
    block: u16,
    slot: u32,
) -> Result<(), OpenFault>
    requires block { block ≡ frames.old.shape.block }
    requires new { is_old frames.old.shape ≡ false }
    requires runs { frames.old.halted ≡ false }
    requires slot { (slot < (limits_of index.now).slots) × (slot < 4294967295) }
    ensures held { OnOk result (Contains (slots_of (state_of index.now)) slot → IsHeld blocks.new slot) }
    ensures others { OnOk result ((other : ℕ) → IsHeld blocks.old other → IsHeld blocks.new other) }
    ensures read { OnOk result (AreRead D.tells frames.old.shape frames.old.size (D.seen frames.old.disk) blocks.old
        → AreRead D.tells frames.old.shape frames.old.size (D.seen frames.old.disk) blocks.new) }
    ensures same { IsSame frames.old frames.new }
    ensures untouched { IsUntouched D.seen D.may_leave D.moment D.left_since frames.old.disk frames.new.disk }
    ensures certain { D.certain frames.new.disk ≡ D.certain frames.old.disk }
    ensures still_runs { IsOk result → frames.new.halted ≡ false }
    ensures no_slot { result ≡ Err OpenFault.NotAStore → AllByRecursion (IsInside frames.old.shape frames.old.size) (slots_of (state_of index.now)) → ⊥ }
    ensures not_worn { result ≢ Err OpenFault.Worn }
    ensures plan { KeepsPlan D.plan D.unlisted frames.old.disk frames.new.disk (result ≡ Err OpenFault.Disk) }
    ensures cause { Kept (D.faults frames.old.disk) (D.faults frames.new.disk) (D.sound frames.old.disk) (D.sound frames.new.disk)
        (result ≡ Err OpenFault.Disk) }
{
    if !index.is_named(slot) {
        return Ok(());
    }
    let bytes = read_block(alloc, frames, block, slot)?;
    blocks.hold(slot, bytes)?;
    Ok(())
}

/// Reads the blocks that versions name into memory, in the order of their slots.
pub(crate) fn read_blocks<D: Disk>(
    alloc: Global,
    frames: &mut FrameStore<D>,
    index: &Index,
    block: u16,
) -> Result<BlockTable, OpenFault>
    requires block { block ≡ frames.old.shape.block }
    requires new { is_old frames.old.shape ≡ false }
    requires runs { frames.old.halted ≡ false }
    requires kept { IsKeptState (limits_of index.now) (state_of index.now) }
    ensures held { IfOk result (λ blocks. AllByRecursion (IsHeld blocks) (slots_of (state_of index.now))) }
    ensures read { IfOk result (λ blocks. AreRead D.tells frames.old.shape frames.old.size (D.seen frames.old.disk) blocks) }
    ensures same { IsSame frames.old frames.new }
    ensures untouched { IsUntouched D.seen D.may_leave D.moment D.left_since frames.old.disk frames.new.disk }
    ensures certain { D.certain frames.new.disk ≡ D.certain frames.old.disk }
    ensures still_runs { IsOk result → frames.new.halted ≡ false }
    ensures no_slot { result ≡ Err OpenFault.NotAStore → AllByRecursion (IsInside frames.old.shape frames.old.size) (slots_of (state_of index.now)) → ⊥ }
    ensures not_worn { result ≢ Err OpenFault.Worn }
    ensures plan { KeepsPlan D.plan D.unlisted frames.old.disk frames.new.disk (result ≡ Err OpenFault.Disk) }
    ensures cause { Kept (D.faults frames.old.disk) (D.faults frames.new.disk) (D.sound frames.old.disk) (D.sound frames.new.disk)
        (result ≡ Err OpenFault.Disk) }
{
    let mut blocks = BlockTable::with_room(alloc, index.live() as usize)?;
    for slot in 0..index.named_end() {
        hold_block(alloc, frames, index, &mut blocks, block, slot)?;
    }
    Ok(blocks)
}
