//! Stores that the program is to be started over: each is made, and opened, apart from it.

use brick_store::{BrickStore, format, open_store};
use fab_base::{BrickId, GroupId, Members, View, ViewNo};
use fab_disk::MemDisk;
use std::alloc::Global;
use std::io;

/// The bytes of a block, and how many records there may be, by the layout in `data/`.
const BLOCK: u16 = 1;

const RECORDS: u32 = 100;

/// The brick that they are stores of.
const ME: BrickId = BrickId(0);

/// The group a view of which they have learnt.
const GROUP: GroupId = GroupId(0);

/// The error of a store or a list that is refused.
fn refused() -> io::Error {
    io::Error::from(io::ErrorKind::InvalidData)
}

/// A list of members: numbers of bricks, apart by spaces.
fn read_members(alloc: Global, text: &str) -> io::Result<Members> {
    let mut bricks = Vec::new(alloc);
    for word in text.split(' ') {
        let Ok(brick) = word.parse::<u16>() else {
            return Err(refused());
        };
        bricks.push(BrickId(brick))?;
    }
    match Members::new(bricks.as_slice()) {
        Some(members) => Ok(members),
        None => Err(refused()),
    }
}

/// The store that a disk holds, opened.
fn open(alloc: Global, disk: MemDisk) -> io::Result<BrickStore<MemDisk>> {
    match open_store(alloc, disk, ME, BLOCK, RECORDS) {
        Ok(store) => Ok(store),
        Err(_) => Err(refused()),
    }
}

/// A disk with a store that was opened once, and has learnt view 2 with these members, and with the same before them.
pub(crate) fn learnt_store(alloc: Global, members: &str) -> io::Result<MemDisk> {
    let members = read_members(alloc, members)?;
    let mut disk = MemDisk::new(alloc, Vec::new(alloc));
    if format(alloc, &mut disk, ME, BLOCK, RECORDS).is_err() {
        return Err(refused());
    }
    let mut store = open(alloc, disk)?;
    let number = ViewNo(2);
    if members.as_slice().is_empty() || store.learnt(GROUP).0 >= number.0 {
        return Err(refused());
    }
    let view = View {
        number,
        members: members.copy(),
        prior: members,
    };
    match store.learn(GROUP, view) {
        Ok(()) => Ok(store.into_disk()),
        Err(_) => Err(refused()),
    }
}

/// Which opening the next one of the store on a disk is, by the count of a copy, which is opened here.
pub(crate) fn next_opening(alloc: Global, disk: &MemDisk) -> io::Result<u32> {
    let copy = MemDisk::new(alloc, disk.content(alloc)?);
    Ok(open(alloc, copy)?.boot())
}
