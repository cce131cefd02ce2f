//! Runs of calls of a disk, for which room in memory was made before.

ghost use Rattle.std.specs.Prelude.{◌≡◌, ◌+◌, ◌≤◌, ◌^◌, ◌∷◌, [], List, ℕ, length, OnOk, OnErr, IsOk, IsOkUnless};
ghost use Rattle.fab_disk.specs.Disk.{written, Torn, Follows, Only, Elapses, IsUntouched, IsWrittenOrNot, Kept, KeepsRoom};
ghost use Rattle.fab_disk.specs.Changing.{Run};
ghost use Rattle.fab_disk.specs.Plan.{IsRun, KeepsPlan};
ghost use Rattle.frame_store.specs.Layouts.{open_gate};
ghost use Rattle.frame_store.specs.Ends.{end_of};
ghost use Rattle.frame_store.specs.Steps.{IsStaged, IsStagedThrice, IsShutFirst, IsShutBefore, IsGated, IsBothGated, IsThriceGated, IsRewritten, IsBrought, both_written, thrice_written};

use crate::buffers::OPEN;
use crate::faults::FrameFault;
use fab_disk::Disk;

// Bytes, and where they are written.
#[derive(Clone, Copy)]
pub(crate) struct Placed<'a> {
    pub(crate) at: u64,
    pub(crate) bytes: &'a [u8],
}

// Makes room in memory for calls of the disk.
pub(crate) fn reserve<D: Disk>(
    disk: &mut D,
    calls: usize,
    bytes: usize,
    end: u64,
) -> Result<(), FrameFault>
    requires { end ≤ 2 ^ 48 }
    ensures made { OnOk result (D.has_room disk.new calls bytes end) }
    ensures enough { D.has_room disk.old calls bytes end → IsOk result }
    ensures only { IsOkUnless result FrameFault.NoMemory }
    ensures untouched { IsUntouched D.seen D.may_leave D.moment D.left_since disk.old disk.new }
    ensures certain { D.certain disk.new ≡ D.certain disk.old }
    ensures room { KeepsRoom (D.has_room disk.old) (D.has_room disk.new) }
    ensures plan { KeepsPlan D.plan D.unlisted disk.old disk.new ⊥ }
    ensures cause { Kept (D.faults disk.old) (D.faults disk.new) (D.sound disk.old) (D.sound disk.new) ⊥ }
{
    match disk.reserve(calls, bytes, end) {
        Ok(()) => Ok(()),
        Err(_) => Err(FrameFault::NoMemory),
    }
}

// One write.
fn write<D: Disk>(disk: &mut D, at: u64, bytes: &[u8]) -> Result<(), FrameFault>
    requires reach { at + length bytes.now ≤ 2 ^ 48 }
    requires room { D.has_room disk.old 1 (length bytes.now) (at + length bytes.now) }
    ensures written { D.tells → OnOk result (D.seen disk.new ≡ written at bytes.now (D.seen disk.old)) }
    ensures crash { Follows (Torn at (length bytes.now)) (D.may_leave disk.old) (D.may_leave disk.new) }
    ensures time { Elapses (D.moment disk.old) (D.moment disk.new) (D.left_since disk.old) (D.left_since disk.new) (D.may_leave disk.new) }
    ensures left { OnOk result ((calls room end : ℕ) → at + length bytes.now ≤ end → D.has_room disk.old (calls + 1) (room + length bytes.now) end
        → D.has_room disk.new calls room end) }
    ensures run { IsRun D.tells D.moment D.plan D.unlisted 1 disk.old disk.new (IsOk result) (result ≡ Err FrameFault.Disk) }
    ensures certain { D.certain disk.new ≡ D.certain disk.old }
    ensures cut { D.tells → result ≡ Err FrameFault.Disk → IsWrittenOrNot (D.moment disk.old) (D.moment disk.new) (D.seen disk.old) (D.seen disk.new)
        (written at bytes.now (D.seen disk.old)) }
    ensures only { IsOkUnless result FrameFault.Disk }
    ensures cause { Kept (D.faults disk.old) (D.faults disk.new) (D.sound disk.old) (D.sound disk.new) (result ≡ Err FrameFault.Disk) }
{
    match disk.write_at(at, bytes) {
        Ok(()) => Ok(()),
        Err(_) => Err(FrameFault::Disk),
    }
}

// One sync.
fn sync<D: Disk>(disk: &mut D) -> Result<(), FrameFault>
    requires room { D.has_room disk.old 1 0 0 }
    ensures durable { D.tells → OnOk result (Only (D.seen disk.old) (D.may_leave disk.new)) }
    ensures content { D.seen disk.new ≡ D.seen disk.old }
    ensures crash { (image : List ℕ) → D.may_leave disk.new image → D.may_leave disk.old image }
    ensures time { Elapses (D.moment disk.old) (D.moment disk.new) (D.left_since disk.old) (D.left_since disk.new) (D.may_leave disk.new) }
    ensures left { OnOk result ((calls room end : ℕ) → D.has_room disk.old (calls + 1) room end → D.has_room disk.new calls room end) }
    ensures run { IsRun D.tells D.moment D.plan D.unlisted 1 disk.old disk.new (IsOk result) (result ≡ Err FrameFault.Disk) }
    ensures certain { result ≡ Err FrameFault.Disk → D.certain disk.new ≡ D.certain disk.old }
    ensures cut { result ≡ Err FrameFault.Disk → D.moment disk.new ≤ D.moment disk.old + 1 }
    ensures only { IsOkUnless result FrameFault.Disk }
    ensures cause { Kept (D.faults disk.old) (D.faults disk.new) (D.sound disk.old) (D.sound disk.new) (result ≡ Err FrameFault.Disk) }
{
    match disk.sync() {
        Ok(()) => Ok(()),
        Err(_) => Err(FrameFault::Disk),
    }
}

// One write that is synced.
pub(crate) fn write_synced<D: Disk>(disk: &mut D, at: u64, bytes: &[u8]) -> Result<(), FrameFault>
    requires reach { at + length bytes.now ≤ 2 ^ 48 }
    requires room { D.has_room disk.old 2 (length bytes.now) (at + length bytes.now) }
    ensures change { Run D.Disk 2 (λ image. image ≡ D.seen disk.old)
        (Torn at (length bytes.now) (D.seen disk.old))
        (λ image. image ≡ written at bytes.now (D.seen disk.old)) disk.old disk.new (end_of result) }
    ensures left { OnOk result ((calls room end : ℕ) → at + length bytes.now ≤ end → D.has_room disk.old (calls + 2) (room + length bytes.now) end
        → D.has_room disk.new calls room end) }
    ensures only { IsOkUnless result FrameFault.Disk }
{
    write(disk, at, bytes)?;
    sync(disk)
}

// One write that is synced, and then an open gate.
pub(crate) fn write_gated<D: Disk>(
    disk: &mut D,
    at: u64,
    bytes: &[u8],
    gate: u64,
) -> Result<(), FrameFault>
    requires reach { at + length bytes.now ≤ 2 ^ 48 }
    requires gate { gate + 1 ≤ at + length bytes.now }
    requires room { D.has_room disk.old 4 (length bytes.now + 1) (at + length bytes.now) }
    ensures change { Run D.Disk 4 (Torn at (length bytes.now) (D.seen disk.old))
        (IsGated at bytes.now gate (D.seen disk.old))
        (λ image. image ≡ written gate (open_gate ∷ []) (written at bytes.now (D.seen disk.old))) disk.old disk.new (end_of result) }
    ensures left { OnOk result ((calls room end : ℕ) → at + length bytes.now ≤ end → D.has_room disk.old (calls + 4)
        (room + (length bytes.now + 1)) end → D.has_room disk.new calls room end) }
    ensures only { IsOkUnless result FrameFault.Disk }
{
    write_synced(disk, at, bytes)?;
    write_synced(disk, gate, &[OPEN])
}

// Two writes that are synced.
fn write_both_synced<D: Disk>(
    disk: &mut D,
    from: u64,
    first: &[u8],
    at: u64,
    second: &[u8],
) -> Result<(), FrameFault>
    requires reach { at + length second.now ≤ 2 ^ 48 }
    requires first { from + length first.now ≤ at + length second.now }
    requires room { D.has_room disk.old 3 (length first.now + length second.now) (at + length second.now) }
    ensures change { Run D.Disk 3 (IsStaged from (length first.now) at (length second.now) (D.seen disk.old))
        (IsStaged from (length first.now) at (length second.now) (D.seen disk.old))
        (λ image. image ≡ both_written from first.now at second.now (D.seen disk.old)) disk.old disk.new (end_of result) }
    ensures left { OnOk result ((calls room end : ℕ) → at + length second.now ≤ end → D.has_room disk.old (calls + 3)
        (room + (length first.now + length second.now)) end → D.has_room disk.new calls room end) }
    ensures only { IsOkUnless result FrameFault.Disk }
{
    write(disk, from, first)?;
    write(disk, at, second)?;
    sync(disk)
}

// Two writes that are synced, and then an open gate.
pub(crate) fn write_both_gated<D: Disk>(
    disk: &mut D,
    from: u64,
    first: &[u8],
    at: u64,
    second: &[u8],
    gate: u64,
) -> Result<(), FrameFault>
    requires reach { at + length second.now ≤ 2 ^ 48 }
    requires first { from + length first.now ≤ at + length second.now }
    requires gate { gate + 1 ≤ at + length second.now }
    requires room { D.has_room disk.old 5 (length first.now + length second.now + 1) (at + length second.now) }
    ensures change { Run D.Disk 5 (IsStaged from (length first.now) at (length second.now) (D.seen disk.old))
        (IsBothGated from first.now at second.now gate (D.seen disk.old))
        (λ image. image ≡ written gate (open_gate ∷ []) (both_written from first.now at second.now (D.seen disk.old))) disk.old disk.new (end_of result) }
    ensures left { OnOk result ((calls room end : ℕ) → at + length second.now ≤ end → D.has_room disk.old (calls + 5)
        (room + (length first.now + length second.now + 1)) end → D.has_room disk.new calls room end) }
    ensures only { IsOkUnless result FrameFault.Disk }
{
    write_both_synced(disk, from, first, at, second)?;
    write_synced(disk, gate, &[OPEN])
}

// Shuts a gate, writes what stands behind it and a list, and opens the gate.
pub(crate) fn rewrite_gated<D: Disk>(
    disk: &mut D,
    gate: u64,
    shut: &[u8],
    rest: &[u8],
    at: u64,
    list: &[u8],
) -> Result<(), FrameFault>
    requires reach { at + length list.now ≤ 2 ^ 48 }
    requires shut { gate + length shut.now ≤ at + length list.now }
    requires rest { gate + 1 + length rest.now ≤ at + length list.now }
    requires room { D.has_room disk.old 7 (length shut.now + (length rest.now + length list.now + 1)) (at + length list.now) }
    ensures change { Run D.Disk 7 (IsShutFirst gate shut.now rest.now at list.now (D.seen disk.old))
        (IsRewritten gate shut.now rest.now at list.now (D.seen disk.old))
        (λ image. image ≡ written gate (open_gate ∷ [])
        (both_written (gate + 1) rest.now at list.now (written gate shut.now (D.seen disk.old)))) disk.old disk.new (end_of result) }
    ensures left { OnOk result ((calls room end : ℕ) → at + length list.now ≤ end → D.has_room disk.old (calls + 7)
        (room + (length shut.now + (length rest.now + length list.now + 1))) end → D.has_room disk.new calls room end) }
    ensures only { IsOkUnless result FrameFault.Disk }
{
    write_synced(disk, gate, shut)?;
    write_both_gated(disk, gate + 1, rest, at, list, gate)
}

// Three writes that are synced.
fn write_thrice_synced<D: Disk>(
    disk: &mut D,
    first: Placed<'_>,
    second: Placed<'_>,
    third: Placed<'_>,
    end: u64,
) -> Result<(), FrameFault>
    requires reach { end ≤ 2 ^ 48 }
    requires first { first.at + length first.bytes.now ≤ end }
    requires second { second.at + length second.bytes.now ≤ end }
    requires third { third.at + length third.bytes.now ≤ end }
    requires room { D.has_room disk.old 4 (length first.bytes.now + (length second.bytes.now + length third.bytes.now)) end }
    ensures change { Run D.Disk 4
        (IsStagedThrice first.entry.at (length first.entry.bytes.now) second.entry.at (length second.entry.bytes.now) third.entry.at (length third.entry.bytes.now) (D.seen disk.old))
        (IsStagedThrice first.entry.at (length first.entry.bytes.now) second.entry.at (length second.entry.bytes.now) third.entry.at (length third.entry.bytes.now) (D.seen disk.old))
        (λ image. image ≡ thrice_written first.entry.at first.entry.bytes.now second.entry.at second.entry.bytes.now third.entry.at third.entry.bytes.now (D.seen disk.old))
        disk.old disk.new (end_of result) }
    ensures left { OnOk result ((calls room : ℕ) → D.has_room disk.old (calls + 4)
        (room + (length first.entry.bytes.now + (length second.entry.bytes.now + length third.entry.bytes.now))) end → D.has_room disk.new calls room end) }
    ensures only { IsOkUnless result FrameFault.Disk }
{
    write(disk, first.at, first.bytes)?;
    write(disk, second.at, second.bytes)?;
    write(disk, third.at, third.bytes)?;
    sync(disk)
}

// Three writes that are synced, and then an open gate.
fn write_thrice_gated<D: Disk>(
    disk: &mut D,
    first: Placed<'_>,
    second: Placed<'_>,
    third: Placed<'_>,
    gate: u64,
    end: u64,
) -> Result<(), FrameFault>
    requires reach { end ≤ 2 ^ 48 }
    requires first { first.at + length first.bytes.now ≤ end }
    requires second { second.at + length second.bytes.now ≤ end }
    requires third { third.at + length third.bytes.now ≤ end }
    requires gate { gate + 1 ≤ end }
    requires room { D.has_room disk.old 6 (length first.bytes.now + (length second.bytes.now + length third.bytes.now) + 1) end }
    ensures change { Run D.Disk 6
        (IsStagedThrice first.entry.at (length first.entry.bytes.now) second.entry.at (length second.entry.bytes.now) third.entry.at (length third.entry.bytes.now) (D.seen disk.old))
        (IsThriceGated first.entry.at first.entry.bytes.now second.entry.at second.entry.bytes.now third.entry.at third.entry.bytes.now gate (D.seen disk.old))
        (λ image. image ≡ written gate (open_gate ∷ [])
        (thrice_written first.entry.at first.entry.bytes.now second.entry.at second.entry.bytes.now third.entry.at third.entry.bytes.now (D.seen disk.old)))
        disk.old disk.new (end_of result) }
    ensures left { OnOk result ((calls room : ℕ) → D.has_room disk.old (calls + 6)
        (room + (length first.entry.bytes.now + (length second.entry.bytes.now + length third.entry.bytes.now) + 1)) end → D.has_room disk.new calls room end) }
    ensures only { IsOkUnless result FrameFault.Disk }
{
    write_thrice_synced(disk, first, second, third, end)?;
    write_synced(disk, gate, &[OPEN])
}

// Shuts a gate, writes blocks, a list and what stands behind the gate, and opens it.
pub(crate) fn bring_gated<D: Disk>(
    disk: &mut D,
    gate: u64,
    shut: &[u8],
    blocks: Placed<'_>,
    list: Placed<'_>,
    rest: &[u8],
    end: u64,
) -> Result<(), FrameFault>
    requires reach { end ≤ 2 ^ 48 }
    requires shut { gate + length shut.now ≤ end }
    requires blocks { blocks.at + length blocks.bytes.now ≤ end }
    requires list { list.at + length list.bytes.now ≤ end }
    requires rest { gate + 1 + length rest.now ≤ end }
    requires room { D.has_room disk.old 8 (length shut.now + (length blocks.bytes.now + (length list.bytes.now + length rest.now) + 1)) end }
    ensures change { Run D.Disk 8 (IsShutBefore gate shut.now blocks.entry.at blocks.entry.bytes.now list.entry.at list.entry.bytes.now rest.now (D.seen disk.old))
        (IsBrought gate shut.now blocks.entry.at blocks.entry.bytes.now list.entry.at list.entry.bytes.now rest.now (D.seen disk.old))
        (λ image. image ≡ written gate (open_gate ∷ [])
        (thrice_written blocks.entry.at blocks.entry.bytes.now list.entry.at list.entry.bytes.now (gate + 1) rest.now (written gate shut.now (D.seen disk.old))))
        disk.old disk.new (end_of result) }
    ensures left { OnOk result ((calls room : ℕ) → D.has_room disk.old (calls + 8)
        (room + (length shut.now + (length blocks.entry.bytes.now + (length list.entry.bytes.now + length rest.now) + 1))) end → D.has_room disk.new calls room end) }
    ensures only { IsOkUnless result FrameFault.Disk }
{
    write_synced(disk, gate, shut)?;
    let header = Placed {
        at: gate + 1,
        bytes: rest,
    };
    write_thrice_gated(disk, blocks, list, header, gate, end)
}
