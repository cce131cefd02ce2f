//! The block of a version that is added.

ghost use Rattle.std.specs.Prelude.{◌≡◌, ◌≢◌, ◌<◌, ℕ, None, Some, IsSome, Err, IfOk, OnOk, OnErr};
ghost use Rattle.std.specs.List.{Contains};
ghost use Rattle.brick_state.specs.Slots.{slots_of};
ghost use Rattle.brick_state.specs.States.{live};
ghost use Rattle.brick_state.specs.Indexes.{state_of, limits_of};
ghost use Rattle.brick_store.specs.BlockTables.{block_under};
ghost use Rattle.brick_store.specs.Standing.{AllSlots};

use crate::block_tables::BlockTable;
use crate::faults::StoreFault;
use brick_state::Index;
use fab_base::Bytes;

/// Holds a block in memory, under the least slot that no version names. What was held there was the block of a version that is no
/// longer kept.
///
/// # Errors
/// [`StoreFault::NoMemory`].
pub fn hold_new(index: &Index, blocks: &mut BlockTable, block: Bytes) -> Result<u32, StoreFault>
    requires free { live (state_of index.now) < (limits_of index.now).slots }
    ensures slot { IfOk result (λ slot. slot < (limits_of index.now).slots) }
    ensures unnamed { IfOk result (λ slot. AllSlots (λ other. other ≢ slot) (state_of index.now)) }
    // Each lower slot is named by a version.
    ensures least { IfOk result (λ slot. (other : ℕ) → other < slot → Contains (slots_of (state_of index.now)) other) }
    ensures held { IfOk result (λ slot. block_under blocks.new slot ≡ Some block) }
    ensures same { AllSlots (λ other. block_under blocks.new other ≡ block_under blocks.old other) (state_of index.now) }
    ensures memory { OnErr result (result ≡ Err StoreFault.NoMemory) }
{
    let slot = index.free_slot()?;
    blocks.hold(slot, block)?;
    Ok(slot)
}

/// The block that is held under a slot.
pub fn held_under(blocks: &BlockTable, slot: u32) -> &[u8]
    requires { IsSome (block_under blocks.now slot) }
    ensures { block_under blocks.now slot ≡ Some result.now }
{
    match blocks.get(slot) {
        Some(block) => block.as_slice(),
        None => unreachable!(),
    }
}

/// Forgets the block under a slot again where its version was not added.
pub fn forget_refused(
    blocks: &mut BlockTable,
    slot: u32,
    answer: Result<(), StoreFault>,
) -> Result<(), StoreFault>
    ensures answer { result ≡ answer }
    ensures added { OnOk answer (blocks.new ≡ blocks.old) }
    ensures refused { OnErr answer (block_under blocks.new slot ≡ None) }
    ensures others { (other : ℕ) → other ≢ slot → block_under blocks.new other ≡ block_under blocks.old other }
{
    match answer {
        Ok(()) => Ok(()),
        Err(fault) => {
            blocks.forget(slot);
            Err(fault)
        }
    }
}
