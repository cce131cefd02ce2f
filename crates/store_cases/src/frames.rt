//! The list of frames below a brick's store.

ghost use Rattle.std.specs.Prelude.{◌≡◌, ◌++◌, ◌∷◌, [], ◌≤◌, ◌+◌, length, IfOk};
ghost use Rattle.frame_store.specs.Layouts.{shape_of, formed};
ghost use Rattle.frame_store.specs.Listed.{frame_of, size_of};

use crate::bricks::{Change, Origin, ROOMY, disk_after, empty_disk};
use anyhow::Result;
use fab_base::Bytes;
use fab_disk::{Armed, Disk, FileDisk, MemDisk, Plan};
use frame_store::{
    Collected, Frame, FrameFault, FrameList, FrameStore, OpenFault, format, format_one, open_store,
};
use std::alloc::Global;
use std::fs::File;
use std::rt::Files;
use std::{fs, io};

/// The list on a disk that was made for one block of two bytes at brick 258, and its frames.
fn opened<D: Disk + Drop>(alloc: Global, disk: D) -> Result<(FrameStore<D>, Collected), OpenFault>
    ensures { IfOk result (λ made. made.0.shape ≡ formed made.0.shape.form (shape_of 258 2 1)) }
{
    let mut list = Collected::new(alloc);
    match open_store(alloc, disk, 258, 2, 1, &mut list) {
        Ok(store) => Ok((store, list)),
        Err((fault, _)) => Err(fault),
    }
}

fn empty_frame(alloc: Global) -> Result<Frame, FrameFault>
    ensures { IfOk result (λ frame. frame ≡ frame_of 9 []) }
{
    let body = Bytes::from_slice(alloc, &[])?;
    Ok(Frame { kind: 9, body })
}

fn two_frames(alloc: Global) -> Result<FrameList, FrameFault>
    ensures { IfOk result (λ list. size_of list ≡ 12) }
{
    let frame = empty_frame(alloc)?;
    let mut list = FrameList::new(alloc);
    list.push(&frame)?;
    list.push(&frame)?;
    Ok(list)
}

/// Rewrites the list as two empty frames, on a disk that stops at one of its calls.
fn rewrite<D: Armed>(
    alloc: Global,
    store: &mut FrameStore<D>,
    call: u64,
) -> Result<(), FrameFault> {
    store.sync()?;
    store.arm(Plan::Stop(call));
    if !store.is_old() {
        let _ = store.rewrite(two_frames(alloc)?);
    }
    Ok(())
}

/// The disk after such a rewrite of its list.
fn rewritten<D: Armed + Drop>(alloc: Global, disk: D, call: u64) -> Result<D> {
    let (mut store, _) = opened(alloc, disk)?;
    let answer = rewrite(alloc, &mut store, call);
    let disk = store.into_disk();
    answer?;
    Ok(disk)
}

/// The list of the old format on a disk, brought over with none of its frames.
fn brought_disk(alloc: Global) -> Result<MemDisk> {
    let mut disk = empty_disk(alloc);
    format_one(alloc, &mut disk, 258, 2, 1)?;
    let (mut store, _) = opened(alloc, disk)?;
    let answer = bring_none(alloc, &mut store);
    let disk = store.into_disk();
    answer?;
    Ok(disk)
}

fn bring_none<D: Disk>(alloc: Global, store: &mut FrameStore<D>) -> Result<(), FrameFault> {
    store.sync()?;
    if store.is_old() {
        store.bring_over(&[], FrameList::new(alloc))?;
    }
    Ok(())
}

/// The list on a disk that holds none of its frames yet.
fn fresh_disk(alloc: Global, bricks: &[u16]) -> Result<MemDisk, FrameFault> {
    let mut disk = empty_disk(alloc);
    for brick in bricks {
        format(alloc, &mut disk, *brick, 2, 1)?;
    }
    Ok(disk)
}

/// How many frames the list on a disk has.
fn count_frames<D: Disk + Drop>(alloc: Global, disk: D) -> Result<usize> {
    let (_, list) = opened(alloc, disk)?;
    Ok(list.frames().len())
}

/// The list on such a disk, by the format that it was made in.
fn made_disk(alloc: Global, origin: Origin) -> Result<MemDisk> {
    match origin {
        Origin::New => Ok(fresh_disk(alloc, &[258])?),
        Origin::Old => brought_disk(alloc),
    }
}

/// How many frames are found where a rewrite stopped before its gate was opened, and the next one at its first call, which is settled by
/// this number.
fn stale_frames(alloc: Global, origin: Origin, pick: u64) -> Result<usize> {
    let mut disk = rewritten(alloc, made_disk(alloc, origin)?, 5)?;
    disk.settle(1);
    let mut disk = rewritten(alloc, disk, 1)?;
    disk.settle(pick);
    count_frames(alloc, disk)
}

/// A rewrite that was stopped before its gate was opened leaves a list that the next one's first call may not bring to life. How many
/// frames are found, at most, over many picks.
fn most_stale_frames(alloc: Global, origin: Origin) -> Result<usize> {
    let mut most = 0;
    for pick in 0..32 {
        most = stale_frames(alloc, origin, pick)?.max(most);
    }
    Ok(most)
}

/// The first byte of the block in a slot of blocks of two bytes.
fn byte_in<D: Disk>(store: &mut FrameStore<D>, slot: u32) -> Result<u8, FrameFault> {
    let mut block = [0; 2];
    if !store.is_old() && store.has_slot(slot) && store.shape().block == 2 {
        store.read_slot(slot, &mut block)?;
    }
    Ok(block[0])
}

fn print_slots<D: Disk>(rt: &impl Print, store: &mut FrameStore<D>) -> Result<()> {
    for slot in 0..4 {
        println!(rt; "slot {slot}: {}", byte_in(store, slot)?)?;
    }
    Ok(())
}

/// Prints the first bytes of the slots of the brick's store on a disk.
fn print_slots_on<D: Disk + Drop>(rt: &(impl Print + AllocGlobal), disk: D) -> Result<()> {
    let mut list = Collected::new(rt.alloc());
    match open_store(rt.alloc(), disk, 5, 2, ROOMY, &mut list) {
        Ok(mut store) => print_slots(rt, &mut store),
        Err((fault, _)) => Err(fault.into()),
    }
}

/// A store of three versions, of which the last one alone is left, and then of a fourth: its block takes the least free slot.
fn reuse_slots(rt: &(impl Print + AllocGlobal), origin: Origin) -> Result<()> {
    let alloc = rt.alloc();
    let changes = [
        Change::Version(1, 11),
        Change::Version(2, 12),
        Change::Version(3, 13),
        Change::Collect(3),
        Change::Version(4, 14),
    ];
    print_slots_on(rt, disk_after(alloc, empty_disk(alloc), origin, &changes)?)
}

/// Makes a list in a new file.
fn make_list<R: Files<File = File> + AllocGlobal>(rt: &R, path: &str) -> Result<()> {
    let mut disk = FileDisk::new(File::create_new(rt, path)?);
    Ok(format(rt.alloc(), &mut disk, 258, 2, 1)?)
}

/// The bytes of a file, which is removed.
fn taken<R: Files<File = File> + AllocGlobal>(rt: &R, path: &str) -> io::Result<Vec<u8>> {
    let bytes = fs::read(rt, path)?;
    fs::remove_file(rt, path)?;
    Ok(bytes)
}

/// The bytes of a list that was just made on a real file: two headers, a slot, and a closed gate.
fn bytes_of_new<R: Files<File = File> + AllocGlobal>(rt: &R) -> Result<Vec<u8>> {
    let path = "store_cases_format";
    make_list(rt, path)?;
    Ok(taken(rt, path)?)
}

fn print_bytes(rt: &impl Print, bytes: &[u8]) -> io::Result<()> {
    print!(rt; "format:")?;
    for byte in bytes {
        print!(rt; " {byte:02x}")?;
    }
    println!(rt;)
}

fn print_format(rt: &impl Print, bytes: &[u8]) -> io::Result<()> {
    for piece in bytes.chunks(32) {
        print_bytes(rt, piece)?;
    }
    Ok(())
}

/// Why a list is not opened on whose disk another brick's was made.
fn refusal(alloc: Global) -> Result<Option<OpenFault>, FrameFault> {
    let disk = fresh_disk(alloc, &[258, 259])?;
    Ok(opened(alloc, disk).err())
}

fn print_stale(rt: &(impl Print + AllocGlobal), origin: Origin) -> Result<()> {
    let most = most_stale_frames(rt.alloc(), origin)?;
    println!(rt; "frames of a stale list: {most}")?;
    Ok(())
}

fn print_refusal(rt: &(impl Print + AllocGlobal)) -> Result<()> {
    if let Some(fault) = refusal(rt.alloc())? {
        println!(rt; "another brick's list: {fault:?}")?;
    }
    Ok(())
}

/// Prints what is found of them.
pub fn run<R: Files<File = File> + Print + AllocGlobal>(rt: &R) -> Result<()> {
    print_format(rt, &bytes_of_new(rt)?)?;
    for origin in [Origin::New, Origin::Old] {
        reuse_slots(rt, origin)?;
        print_stale(rt, origin)?;
    }
    print_refusal(rt)
}
