//! Folding a list of the old format as it is read.

ghost use Rattle.std.specs.Prelude.{◌≡◌, ◌⊎◌, ◌<◌, Some, None, IfSome, IfNone, IfOk, option_map, take, drop};
ghost use Rattle.brick_state.specs.Indexes.{state_of, limits_of};
ghost use Rattle.frame_store.specs.Listed.{frame_of};
ghost use Rattle.brick_store.specs.OldLists.{old_block_of, old_version_kind, place_size};
ghost use Rattle.brick_state.specs.KeptStates.{IsKeptState};
ghost use Rattle.brick_store.specs.Openings.{TakesOld, memory_limits};
ghost use Rattle.brick_store.specs.Standing.{AllSlots, IsCached};
ghost use Rattle.stamp_store.specs.LogSpelling.{logged_of};

use crate::additions::hold_new;
use crate::block_tables::BlockTable;
use crate::readings::take_frame;
use brick_state::Index;
use fab_base::{Bytes, NoMem};
use stamp_store::{LogChange, Logged};
use std::alloc::Global;

/// How many bytes of a version's frame name its stripe and its stamp, as in the frames of all changes of a log.
const PLACE: usize = 30;

/// The size of a store's blocks, and how many live records it may have.
#[derive(Clone, Copy)]
pub(crate) struct Sizes {
    pub(crate) block: u16,
    pub(crate) records: u32,
}

/// What a version's frame of the old format spells: whose version it is and its stamp, whether all versions below it are dropped,
/// and its block.
#[derive(Clone, Copy)]
struct OldVersion<'a> {
    place: Logged,
    bottom: bool,
    block: &'a [u8],
}

/// What stands behind the stamp: whether all versions below are dropped, and the block, which has the store's size.
fn block_of(size: u16, bytes: &[u8]) -> Option<(bool, &[u8])>
    ensures { option_map (λ b. (b.0, b.1.now)) result ≡ old_block_of size bytes.now }
{
    let [flag, high, low, block @ ..] = bytes else {
        return None;
    };
    let length = u16::from_be_bytes([*high, *low]);
    if *flag > 1 || length != size || block.len() != size as usize {
        return None;
    }
    Some((*flag == 1, block))
}

/// The version that a body spells, if it spells one with a block of the store's size.
fn version_of(size: u16, body: &[u8]) -> Option<OldVersion<'_>>
    ensures place { IfSome result (λ v. logged_of 6 (take place_size body.now) ≡ Some v.place) }
    ensures block { IfSome result (λ v. old_block_of size (drop place_size body.now) ≡ Some (v.bottom, v.block.now)) }
    ensures none { IfNone result ((logged_of 6 (take place_size body.now) ≡ None) ⊎ (old_block_of size (drop place_size body.now) ≡ None)) }
{
    if body.len() < PLACE {
        return None;
    }
    let (place, rest) = body.split_at(PLACE);
    let place = Logged::read(6, place)?;
    let (bottom, block) = block_of(size, rest)?;
    Some(OldVersion {
        place,
        bottom,
        block,
    })
}

/// Takes a frame more of a list of the old format. False where it is no record, or one that can't be: then nothing is changed. A
/// version's block is held under the least number that no version has.
pub(crate) fn take_old_frame(
    alloc: Global,
    index: &mut Index,
    blocks: &mut BlockTable,
    sizes: Sizes,
    kind: u8,
    body: &[u8],
) -> Result<bool, NoMem>
    requires few { sizes.records < 4294967295 }
    requires limits { limits_of index.old ≡ memory_limits sizes.records }
    ensures limits { limits_of index.new ≡ limits_of index.old }
    ensures takes { IsKeptState (memory_limits sizes.records) (state_of index.old) → AllSlots (IsCached sizes.block blocks.old) (state_of index.old)
        → IfOk result (λ taken. TakesOld sizes.block sizes.records (frame_of kind body.now) (state_of index.old) (state_of index.new) blocks.old blocks.new taken) }
{
    match kind {
        5 => take_version(alloc, index, blocks, sizes, body),
        8 => Ok(false),
        _ => take_frame(index, kind, body),
    }
}

/// The same of a version.
fn take_version(
    alloc: Global,
    index: &mut Index,
    blocks: &mut BlockTable,
    sizes: Sizes,
    body: &[u8],
) -> Result<bool, NoMem>
    requires few { sizes.records < 4294967295 }
    requires limits { limits_of index.old ≡ memory_limits sizes.records }
    ensures limits { limits_of index.new ≡ limits_of index.old }
    ensures takes { IsKeptState (memory_limits sizes.records) (state_of index.old) → AllSlots (IsCached sizes.block blocks.old) (state_of index.old)
        → IfOk result (λ taken. TakesOld sizes.block sizes.records (frame_of old_version_kind body.now) (state_of index.old) (state_of index.new) blocks.old blocks.new taken) }
{
    let Some(version) = version_of(sizes.block, body) else {
        return Ok(false);
    };
    // (There never are more live records than there may be.)
    if index.live() > sizes.records {
        return Ok(false);
    }
    let block = Bytes::from_slice(alloc, version.block)?;
    let slot = match hold_new(index, blocks, block) {
        Ok(slot) => slot,
        Err(_) => return Err(NoMem::NoMemory),
    };
    let change = LogChange::Slot {
        bottom: version.bottom,
        slot,
    };
    let logged = Logged {
        change,
        ..version.place
    };
    index.apply_logged(&logged)
}
