//! A store in a real file.

use crate::bricks::{Brick, Change, Origin, Picture, ROOMY, told_after, told_by};
use anyhow::Result;
use brick_store::OpenFault;
use fab_disk::{Disk, FileDisk};
use std::alloc::Global;
use std::fs::{File, OpenOptions};
use std::rt::Files;
use std::{fs, io};

const PATH: &str = "store_cases_disk";

/// A disk over a new file.
fn created<R: Files<File = File>>(rt: &R) -> io::Result<FileDisk> {
    Ok(FileDisk::new(File::create_new(rt, PATH)?))
}

/// A disk over the file that was created.
fn reopened<R: Files<File = File>>(rt: &R) -> io::Result<FileDisk> {
    let file = OpenOptions::new().read(true).write(true).open(rt, PATH)?;
    Ok(FileDisk::new(file))
}

/// Why a disk is not opened.
fn refusal<D: Disk + Drop>(alloc: Global, disk: D) -> Option<OpenFault> {
    Brick::reopen(alloc, disk, ROOMY).err()
}

/// What a store tells that is made in the file.
fn told_by_made<R: Files<File = File> + AllocGlobal>(rt: &R) -> Result<Picture> {
    let changes = [Change::Order(9), Change::Version(9, 9), Change::Accept(9)];
    told_after(rt.alloc(), reopened(rt)?, Origin::New, &changes)
}

/// What the store in the file tells once it is opened again.
fn told_by_kept<R: Files<File = File> + AllocGlobal>(rt: &R) -> Result<Picture> {
    Ok(told_by(rt.alloc(), reopened(rt)?)?)
}

/// What is told of the file.
#[derive(Clone, Copy)]
struct Told {
    empty: Option<OpenFault>,
    made: Picture,
    kept: Picture,
}

/// A real file: an empty one is no store, and one that was closed and opened again tells the same.
fn try_file<R: Files<File = File> + AllocGlobal>(rt: &R) -> Result<Told> {
    let empty = refusal(rt.alloc(), created(rt)?);
    let made = told_by_made(rt)?;
    let kept = told_by_kept(rt)?;
    Ok(Told { empty, made, kept })
}

impl Told {
    fn print(&self, rt: &impl Print) -> io::Result<()> {
        if let Some(fault) = self.empty {
            println!(rt; "empty file: {fault:?}")?;
        }
        println!(rt; "file: {:?}", self.made)?;
        println!(rt; "opened again: {:?}", self.kept)
    }
}

/// Prints what is told of a store in a real file, which is removed.
pub fn run<R: Files<File = File> + Print + AllocGlobal>(rt: &R) -> Result<()> {
    try_file(rt)?.print(rt)?;
    fs::remove_file(rt, PATH)?;
    Ok(())
}
