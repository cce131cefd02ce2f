//! Making a store.

ghost use Rattle.std.specs.Prelude.{◌≡◌, ◌≤◌, [], true, OnOk};
ghost use Rattle.fab_disk.specs.Changing.{IsAny, Run};
ghost use Rattle.frame_store.specs.declared.shapes.Form.TheVariants.{Old};
ghost use Rattle.frame_store.specs.Images.{OpensAs};
ghost use Rattle.frame_store.specs.Layouts.{formed, shape_of};
ghost use Rattle.brick_state.specs.States.{empty};
ghost use Rattle.brick_store.specs.Images.{StandsFor, IsListed};
ghost use Rattle.brick_store.specs.Openings.{making_end, write_fault_of};

use fab_base::{BrickId, IoFault};
use fab_disk::Disk;
use frame_store::FrameFault;
use std::alloc::Global;

/// Makes an empty store of these blocks and records for a brick, in the place of whatever the disk holds. It makes five calls of
/// `write_at` and `sync`. What the disk opens as after a format that did not succeed is not told.
///
/// # Errors
/// [`IoFault::Failed`]: the disk failed. [`IoFault::NoMemory`]: memory was refused, and the disk is as it was.
pub fn format<D: Disk>(
    alloc: Global,
    disk: &mut D,
    me: BrickId,
    block: u16,
    records: u32,
) -> Result<(), IoFault>
    requires block_range { (1 ≤ block) × (block ≤ 4096) }
    requires records_range { (1 ≤ records) × (records ≤ 1048576) }
    // After it the disk stands for a brick that keeps nothing, and so does whatever a crash leaves.
    ensures change { Run D.Disk 5 IsAny IsAny (StandsFor (shape_of me.0 block records) empty) disk.old disk.new (making_end result) }
    // Its list of frames is empty, and of the new format.
    ensures listed { D.tells → OnOk result (IsListed (shape_of me.0 block records) 0 (D.seen disk.new)) }
    ensures form { D.tells → OnOk result (OpensAs (shape_of me.0 block records) [] true (D.seen disk.new)) }
{
    match frame_store::format(alloc, disk, me.0, block, records) {
        Ok(()) => Ok(()),
        Err(fault) => Err(write_fault(fault)),
    }
}

/// Makes an empty store of the old format, in the place of whatever the disk holds: an opening brings it over. It makes five calls of
/// `write_at` and `sync`. What the disk opens as after a format that did not succeed is not told.
///
/// # Errors
/// [`IoFault::Failed`]: the disk failed. [`IoFault::NoMemory`]: memory was refused, and the disk is as it was.
pub fn format_one<D: Disk>(
    alloc: Global,
    disk: &mut D,
    me: BrickId,
    block: u16,
    records: u32,
) -> Result<(), IoFault>
    requires block_range { (1 ≤ block) × (block ≤ 4096) }
    requires records_range { (1 ≤ records) × (records ≤ 1048576) }
    // After it the disk stands for a brick that keeps nothing, and so does whatever a crash leaves.
    ensures change { Run D.Disk 5 IsAny IsAny (StandsFor (shape_of me.0 block records) empty) disk.old disk.new (making_end result) }
    // Its list of frames is empty, and of the old format.
    ensures listed { D.tells → OnOk result (IsListed (shape_of me.0 block records) 0 (D.seen disk.new)) }
    ensures form { D.tells → OnOk result (OpensAs (formed Old (shape_of me.0 block records)) [] true (D.seen disk.new)) }
{
    match frame_store::format_one(alloc, disk, me.0, block, records) {
        Ok(()) => Ok(()),
        Err(fault) => Err(write_fault(fault)),
    }
}

// The fault of a format, by that of its list: the disk failed, or memory was refused.
fn write_fault(fault: FrameFault) -> IoFault
    ensures { result ≡ write_fault_of fault }
{
    match fault {
        FrameFault::Disk | FrameFault::Halted => IoFault::Failed,
        FrameFault::NoMemory => IoFault::NoMemory,
    }
}
