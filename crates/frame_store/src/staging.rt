//! What a change makes ready before it changes the disk.

ghost use Rattle.std.specs.Prelude.{◌≡◌, ◌+◌, ◌^◌, ◌<◌, ◌≤◌, max, length, vec_capacity, OnOk, IsOk, IsOkUnless};
ghost use Rattle.fab_disk.specs.Changing.{Still};
ghost use Rattle.fab_disk.specs.Disk.{KeepsRoom};
ghost use Rattle.frame_store.specs.Listed.{frame_of, line_of, closed_list, size_of};

use crate::buffers::put_line;
use crate::faults::FrameFault;
use crate::lists::FrameList;
use crate::steps::reserve;
use fab_disk::Disk;

// Makes ready to append a frame, and to write a block of so many bytes before: the bytes that go behind the gate, and the
// disk's room.
pub(crate) fn stage<D: Disk>(
    disk: &mut D,
    line: &mut Vec<u8>,
    kind: u8,
    body: &[u8],
    calls: usize,
    block: usize,
    end: u64,
) -> Result<(), FrameFault>
    requires end { end ≤ 2 ^ 48 }
    requires short { length body.now < 2 ^ 32 }
    requires small { block < 2 ^ 32 }
    ensures line { OnOk result (line.new.items ≡ line_of (frame_of kind body.now)) }
    ensures made { OnOk result (D.has_room disk.new calls (block + (length body.now + 7)) end) }
    ensures only { IsOkUnless result FrameFault.NoMemory }
    ensures still { Still D.Disk disk.old disk.new ⊥ }
    ensures room { KeepsRoom (D.has_room disk.old) (D.has_room disk.new) }
    ensures enough { D.has_room disk.old calls (block + (length body.now + 7)) end → length body.now + 6 ≤ vec_capacity line.old → IsOk result }
{
    let bytes = block + (body.len() + 7);
    reserve(disk, calls, bytes, end)?;
    put_line(line, kind, body)?;
    Ok(())
}

// Makes ready to put a list in the place of the one that is there by so many calls, and to write so many bytes of blocks before: the
// list's bytes, and the disk's room.
pub(crate) fn stage_list<D: Disk>(
    disk: &mut D,
    line: &mut Vec<u8>,
    list: &FrameList,
    calls: usize,
    blocks: usize,
    end: u64,
) -> Result<(), FrameFault>
    requires end { end ≤ 2 ^ 48 }
    requires short { size_of list.now < 2 ^ 31 }
    requires few { blocks ≤ 2 ^ 40 }
    ensures line { OnOk result (line.new.items ≡ closed_list list.now) }
    ensures wide { vec_capacity line.old ≤ vec_capacity line.new }
    ensures made { OnOk result (D.has_room disk.new calls (blocks + (size_of list.now + 34)) end) }
    ensures only { IsOkUnless result FrameFault.NoMemory }
    ensures still { Still D.Disk disk.old disk.new ⊥ }
    ensures room { KeepsRoom (D.has_room disk.old) (D.has_room disk.new) }
    ensures enough { D.has_room disk.old calls (blocks + (size_of list.now + 34)) end → size_of list.now + 1 ≤ vec_capacity line.old
        → IsOk result }
{
    let bytes = blocks + (list.size() + 34);
    reserve(disk, calls, bytes, end)?;
    list.put(line)?;
    Ok(())
}

// Makes room in memory for so many calls of the disk: for a sync, for a list in the place of the one that is there, with these
// blocks before it, and for an append of a body with a block.
pub(crate) fn make_room<D: Disk>(
    disk: &mut D,
    line: &mut Vec<u8>,
    sizes: Sizes,
    calls: usize,
    end: u64,
) -> Result<(), FrameFault>
    requires end { end ≤ 2 ^ 48 }
    requires blocks { sizes.blocks ≤ 2 ^ 40 }
    requires list { sizes.list < 2 ^ 31 }
    requires body { sizes.body < 2 ^ 31 }
    requires block { sizes.block < 2 ^ 31 }
    ensures made { OnOk result (D.has_room disk.new calls (sizes.blocks + (sizes.list + 34) + (sizes.block + sizes.body + 7)) end) }
    ensures line { OnOk result (max (sizes.list + 1) (sizes.body + 6) ≤ vec_capacity line.new) }
    ensures only { IsOkUnless result FrameFault.NoMemory }
    ensures still { Still D.Disk disk.old disk.new ⊥ }
    ensures certain { D.certain disk.new ≡ D.certain disk.old }
{
    let bytes = sizes.blocks + (sizes.list + 34) + (sizes.block + sizes.body + 7);
    reserve(disk, calls, bytes, end)?;
    line.clear();
    line.reserve((sizes.list + 1).max(sizes.body + 6))?;
    Ok(())
}

// How many bytes the blocks that are written before a list have, the list, a block and a body.
#[derive(Clone, Copy)]
pub(crate) struct Sizes {
    pub(crate) blocks: usize,
    pub(crate) list: usize,
    pub(crate) block: usize,
    pub(crate) body: usize,
}
