//! The blocks that are held in memory, by their slots.

ghost use Rattle.std.specs.Prelude.{◌≡◌, ◌≢◌, ◌≤◌, ◌<◌, ◌++◌, ℕ, [], None, Some, IfOk, OnOk, length, option_copied, slice_set};
ghost use Rattle.std.specs.Option.{unwrap_or};
ghost use Rattle.brick_store.specs.BlockTables.{block_under, joined_blocks};

use fab_base::{Bytes, NoMem};
use std::alloc::Global;
use std::marker::Model;

/// For each slot the block that is held under it, if one is. A store takes the least free slot for a new block, so few slots lie between those that
/// are held.
#[derive(Drop)]
pub struct BlockTable {
    blocks: Vec<Option<Bytes>>,
}

impl Model for BlockTable {
    ghost use Rattle.brick_store.specs.BlockTables.{SlotBlocks};

    ghost Value = { SlotBlocks };

    ghost view = { λ table. table.blocks.items };
}

impl BlockTable {
    /// A table of no slots, with room for so many.
    pub fn with_room(alloc: Global, slots: usize) -> Result<BlockTable, NoMem>
        ensures { IfOk result (λ made. made ≡ []) }
    {
        let blocks = Vec::with_capacity(alloc, slots)?;
        Ok(BlockTable { blocks })
    }

    /// The block that is held under a slot.
    pub fn get(&self, slot: u32) -> Option<&Bytes>
        ensures { option_copied result ≡ block_under self.now slot }
    {
        match self.blocks.get(slot as usize) {
            Some(Some(block)) => Some(block),
            Some(None) => None,
            None => None,
        }
    }

    /// Holds a block under a slot, in the place of what was held there.
    pub fn hold(&mut self, slot: u32, block: Bytes) -> Result<(), NoMem>
        ensures held { OnOk result (block_under self.new slot ≡ Some block) }
        ensures others { (other : ℕ) → other ≢ slot → block_under self.new other ≡ block_under self.old other }
    {
        let place = slot as usize;
        self.lengthen(place + 1)?;
        self.put(place, Some(block));
        Ok(())
    }

    /// Takes away what is held under a slot.
    pub fn take(&mut self, slot: u32) -> Option<Bytes>
        ensures taken { result ≡ block_under self.old slot }
        ensures gone { block_under self.new slot ≡ None }
        ensures others { (other : ℕ) → other ≢ slot → block_under self.new other ≡ block_under self.old other }
    {
        match self.blocks.get_mut(slot as usize) {
            Some(held) => held.take(),
            None => None,
        }
    }

    /// Forgets what is held under a slot.
    pub fn forget(&mut self, slot: u32)
        ensures gone { block_under self.new slot ≡ None }
        ensures others { (other : ℕ) → other ≢ slot → block_under self.new other ≡ block_under self.old other }
    {
        let place = slot as usize;
        if place < self.blocks.len() {
            self.put(place, None);
        }
    }

    /// The blocks that are held under the slots below this one, one after the other. There is room for blocks of this size.
    #[tactic(auto, using(crate::proofs::BlockTables::joined_more))]
    pub(crate) fn joined(&self, alloc: Global, slots: u32, size: u16) -> Result<Vec<u8>, NoMem>
        ensures { IfOk result (λ bytes. bytes.items ≡ joined_blocks self.now slots) }
    {
        let mut bytes = Vec::with_capacity(alloc, (slots as usize).saturating_mul(size as usize))?;
        for slot in 0..slots {
            self.add_block(slot, &mut bytes)?;
        }
        Ok(bytes)
    }

    // Adds the block that is held under a slot, if one is.
    fn add_block(&self, slot: u32, bytes: &mut Vec<u8>) -> Result<(), NoMem>
        ensures { OnOk result (bytes.new.items ≡ bytes.old.items ++ unwrap_or (block_under self.now slot) []) }
    {
        match self.get(slot) {
            Some(block) => {
                bytes.extend_from_slice(block.as_slice())?;
                Ok(())
            }
            None => Ok(()),
        }
    }

    // Makes it a table of so many slots at least: none is held under those that are new.
    #[tactic(auto, using(crate::proofs::BlockTables::under_push))]
    fn lengthen(&mut self, slots: usize) -> Result<(), NoMem>
        ensures same { (slot : ℕ) → block_under self.new slot ≡ block_under self.old slot }
        ensures long { OnOk result (slots ≤ length self.new) }
    {
        for _ in self.blocks.len()..slots {
            self.blocks.push(None)?;
        }
        Ok(())
    }

    fn put(&mut self, place: usize, block: Option<Bytes>)
        requires { place < length self.old }
        ensures { self.new ≡ slice_set self.old place block }
    {
        if let Some(held) = self.blocks.get_mut(place) {
            *held = block;
        }
    }
}
