//! Tries a brick's store over disks that stop and fail, and prints what each store that is opened again tells.
//!
//! A change of a store makes a number of calls of the disk. Each of them is made to stop, in the middle of its work, or to fail, with
//! nothing done. The disk is then settled by pick 0 (nothing of the calls since the last sync was done), pick 1 (all was done) or pick 2
//! (each byte that is not certain is drawn), and the store is opened again: it tells what it told before the change, or what it tells
//! after it. A line has a word for each call, and one for a number that the change doesn't reach. One is tried over a store of the old
//! format, too, that an opening brought over; so is that opening.
#![tactic(auto)]

mod bricks;
mod files;
mod frames;
mod olds;
mod trials;

use crate::bricks::{Brick, Change, Origin, Picture, disk_after, empty_disk, told_after, told_by};
use brick_store::StoreFault;
use fab_disk::{Disk, MemDisk};
use std::alloc::Global;
use std::io;

/// What a store of three records tells.
#[derive(Clone, Copy)]
struct Filled {
    /// The answer to a change that adds a fourth record.
    full: Result<(), StoreFault>,
    /// What is told once a version was dropped whose block the one above it has.
    collected: Picture,
    /// The records that live once view 3 is learnt.
    live: u32,
}

/// Fills a store of three records.
fn fill<D: Disk + Drop>(alloc: Global, brick: &mut Brick<D>) -> Result<Filled, StoreFault> {
    let changes = [
        Change::Version(5, 5),
        Change::Same(6),
        Change::Order(5),
        Change::Order(8),
    ];
    brick.apply_all(alloc, &changes)?;
    let full = brick.apply(alloc, Change::Same(7));
    brick.apply(alloc, Change::Collect(6))?;
    let collected = brick.look();
    brick.apply(alloc, Change::Learn(3))?;
    let live = brick.look().live;
    Ok(Filled {
        full,
        collected,
        live,
    })
}

/// What a store of three records tells that is made on a disk.
fn told_when_filled<D: Disk + Drop>(
    alloc: Global,
    disk: D,
    origin: Origin,
) -> anyhow::Result<Filled> {
    let mut brick = Brick::make(alloc, disk, origin, 3)?;
    let told = fill(alloc, &mut brick);
    let _ = brick.into_disk();
    Ok(told?)
}

/// Prints that a store of three records is full at the third, keeps the block of a version whose lower neighbour was dropped, and drops
/// all of view 1 where view 3 is learnt.
fn print_filled(rt: &impl Print, told: &Filled) -> io::Result<()> {
    println!(rt; "full: {:?}", told.full)?;
    println!(rt; "collected: {:?}", told.collected)?;
    println!(rt; "view 3: live {}", told.live)
}

/// The disk after many orders of one stripe.
fn often_ordered(alloc: Global) -> anyhow::Result<MemDisk> {
    let mut changes = Vec::new(alloc);
    for time in 1..12_001 {
        changes.push(Change::Order(time))?;
    }
    disk_after(alloc, empty_disk(alloc), Origin::New, &changes)
}

/// Whether a disk holds less than 400,000 bytes.
fn is_small<D: Disk>(disk: &mut D) -> bool {
    match disk.len() {
        Ok(length) => length < 400_000,
        Err(_) => false,
    }
}

/// Many orders of one stripe: the list is rewritten many times, and stays small.
fn print_ordered<D: Disk + Drop>(rt: &(impl Print + AllocGlobal), disk: D) -> anyhow::Result<()> {
    let mut disk = disk;
    let small = is_small(&mut disk);
    let told = told_by(rt.alloc(), disk)?;
    println!(rt; "12000 orders: small {small} {told:?}")?;
    Ok(())
}

/// Tries a store that is made in this format, and prints what it tells as it is filled.
fn try_made(rt: &(impl Print + AllocGlobal), origin: Origin) -> anyhow::Result<()> {
    let alloc = rt.alloc();
    println!(rt;
        "fresh: {:?}",
        told_after(alloc, empty_disk(alloc), origin, &[])?
    )?;
    trials::run(rt, origin)?;
    print_filled(rt, &told_when_filled(alloc, empty_disk(alloc), origin)?)?;
    Ok(())
}

fn main(rt: HostRuntime) -> anyhow::Result<()> {
    try_made(&rt, Origin::New)?;
    trials::print_others(&rt)?;
    print_ordered(&rt, often_ordered(rt.alloc())?)?;
    println!(rt; "brought over:")?;
    try_made(&rt, Origin::Old)?;
    trials::print_bringing(&rt)?;
    files::run(&rt)?;
    frames::run(&rt)
}
