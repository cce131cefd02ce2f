//! Folding a list of frames as it is read.

ghost use Rattle.std.specs.Prelude.{◌≡◌, ◌<◌, IfOk, IfSome};
ghost use Rattle.stamp_store.specs.Reading.{read_of};
ghost use Rattle.frame_store.specs.Listed.{frame_of};
ghost use Rattle.brick_state.specs.Indexes.{state_of, limits_of};
ghost use Rattle.brick_store.specs.Images.{or_logged};
ghost use Rattle.brick_store.specs.Steps.{RecordHasMembers};
ghost use Rattle.brick_store.specs.Openings.{TakesOrEnds, limits_by};

use crate::block_tables::BlockTable;
use crate::old_readings::{Sizes, take_old_frame};
use brick_state::{Index, Record};
use fab_base::NoMem;
use frame_store::TakesFrames;
use stamp_store::{Kept, Logged};
use std::alloc::Global;

/// The record that a frame of this kind and body is, if it is one.
fn read_body(kind: u8, body: &[u8]) -> Option<Record>
    ensures found { result ≡ or_logged (read_of kind body.now) kind body.now }
    ensures members { IfSome result (λ read. RecordHasMembers read) }
{
    match Kept::read(kind, body) {
        Some(kept) => Some(Record::Kept(kept)),
        None => match Logged::read(kind, body) {
            Some(logged) => Some(Record::Logged(logged)),
            None => None,
        },
    }
}

/// Takes a frame more. False where it is no record, or one that can't be: then nothing is changed. The records that a list holds many of
/// are made by themselves: they are small, and the others are large.
pub(crate) fn take_frame(index: &mut Index, kind: u8, body: &[u8]) -> Result<bool, NoMem>
    ensures limits { limits_of index.new ≡ limits_of index.old }
    ensures takes { TakesOrEnds (limits_of index.old) (frame_of kind body.now) (state_of index.old) (state_of index.new) result }
{
    match kind {
        1 => take_boot(index, body),
        4 => take_order(index, body),
        _ => take_logged(index, kind, body),
    }
}

/// The same of a count of openings.
fn take_boot(index: &mut Index, body: &[u8]) -> Result<bool, NoMem>
    ensures limits { limits_of index.new ≡ limits_of index.old }
    ensures takes { TakesOrEnds (limits_of index.old) (frame_of 1 body.now) (state_of index.old) (state_of index.new) result }
{
    match Kept::read_boot(body) {
        Some(count) => {
            index.apply_boot(count);
            Ok(true)
        }
        None => Ok(false),
    }
}

/// The same of an order stamp.
fn take_order(index: &mut Index, body: &[u8]) -> Result<bool, NoMem>
    ensures limits { limits_of index.new ≡ limits_of index.old }
    ensures takes { TakesOrEnds (limits_of index.old) (frame_of 4 body.now) (state_of index.old) (state_of index.new) result }
{
    match Kept::read_order(body) {
        Some((group, (view, (stripe, stamp)))) => index.apply_order(group, view, stripe, stamp),
        None => Ok(false),
    }
}

/// The same of a change of a log, or of any other frame.
fn take_logged(index: &mut Index, kind: u8, body: &[u8]) -> Result<bool, NoMem>
    ensures limits { limits_of index.new ≡ limits_of index.old }
    ensures takes { TakesOrEnds (limits_of index.old) (frame_of kind body.now) (state_of index.old) (state_of index.new) result }
{
    match Logged::read(kind, body) {
        Some(logged) => index.apply_logged(&logged),
        None => take_any(index, kind, body),
    }
}

/// The same of any frame. What it makes on its way is large, so it is no part of its caller.
#[inline(never)]
fn take_any(index: &mut Index, kind: u8, body: &[u8]) -> Result<bool, NoMem>
    ensures limits { limits_of index.new ≡ limits_of index.old }
    ensures takes { TakesOrEnds (limits_of index.old) (frame_of kind body.now) (state_of index.old) (state_of index.new) result }
{
    match read_body(kind, body) {
        Some(record) => index.apply(&record),
        None => Ok(false),
    }
}

/// How many numbers a list's blocks may have. A version that takes the place of all below it in a full store has a number of its own
/// before they are dropped: so an old list has one number more than live records.
fn most_numbers(records: u32, old: bool) -> u32
    requires { records < 4294967295 }
    ensures { record { records = records; slots = result } ≡ limits_by old records }
{
    if old { records + 1 } else { records }
}

/// What a list of frames makes of a brick that keeps nothing, and whether each of them is a record that can be. Where one is not,
/// the list ended before it. The versions of an old list have their blocks with them: these are held in memory under numbers.
#[derive(Drop)]
pub(crate) struct Folded {
    alloc: Global,
    pub(crate) sizes: Sizes,
    of_old: bool,
    pub(crate) index: Index,
    pub(crate) blocks: BlockTable,
    pub(crate) whole: bool,
    ghost few: { sizes.records < 4294967295 },
    ghost made: { limits_of index ≡ limits_by of_old sizes.records },
}

impl Folded {
    ghost use Rattle.std.specs.Prelude.{◌≡◌, ◌≤◌, ◌++◌, ◌∷◌, [], true, List, OnOk};
    ghost use Rattle.frame_store.specs.declared.frames.Frame.{Frame};
    ghost use Rattle.frame_store.specs.Listed.{frame_of};
    ghost use Rattle.brick_state.specs.Indexes.{state_of, limits_of};
    ghost use Rattle.brick_store.specs.Openings.{Makes};

    /// No list was begun yet, of blocks of this size and so many records at most.
    pub(crate) fn new(alloc: Global, block: u16, records: u32) -> Result<Folded, NoMem>
        requires { records ≤ 1048576 }
        ensures sizes { IfOk result (λ made. (made.sizes.block ≡ block) × (made.sizes.records ≡ records)) }
    {
        let index = Index::new(alloc, records, records)?;
        let blocks = BlockTable::with_room(alloc, 0)?;
        Ok(Folded {
            alloc,
            sizes: Sizes { block, records },
            of_old: false,
            index,
            blocks,
            whole: true,
        })
    }

    /// Takes a frame more of a list of the old format.
    fn take_old(&mut self, kind: u8, body: &[u8]) -> Result<(), NoMem>
        requires whole { self.old.whole ≡ true }
        requires old { self.old.of_old ≡ true }
        ensures sizes { (self.new.sizes ≡ self.old.sizes) × (self.new.of_old ≡ self.old.of_old) }
        ensures makes { OnOk result ((frames : List Frame) → Makes self.old.sizes.block self.old.sizes.records true frames (limits_of self.old.index)
            (state_of self.old.index) self.old.blocks true → Makes self.old.sizes.block self.old.sizes.records true (frames ++ frame_of kind body.now ∷ [])
            (limits_of self.new.index) (state_of self.new.index) self.new.blocks self.new.whole) }
    {
        self.whole = take_old_frame(
            self.alloc,
            &mut self.index,
            &mut self.blocks,
            self.sizes,
            kind,
            body,
        )?;
        Ok(())
    }
}

impl TakesFrames for Folded {
    ghost use Rattle.std.specs.Prelude.{◌≡◌};
    ghost use Rattle.brick_state.specs.Indexes.{state_of, limits_of};
    ghost use Rattle.brick_store.specs.Openings.{Makes};

    ghost makes = { λ first old frames now. (now.of_old ≡ old) × (now.sizes ≡ first.sizes)
        × Makes first.sizes.block first.sizes.records old frames (limits_of now.index) (state_of now.index) now.blocks now.whole };

    /// What was taken before is forgotten.
    fn begin(&mut self, old: bool) -> Result<(), NoMem> {
        let records = self.sizes.records;
        let index = Index::new(self.alloc, records, most_numbers(records, old))?;
        let blocks = BlockTable::with_room(self.alloc, 0)?;
        self.index = index;
        self.blocks = blocks;
        self.of_old = old;
        self.whole = true;
        Ok(())
    }

    fn take(&mut self, kind: u8, body: &[u8]) -> Result<(), NoMem> {
        if !self.whole {
            return Ok(());
        }
        if self.of_old {
            return self.take_old(kind, body);
        }
        self.whole = take_frame(&mut self.index, kind, body)?;
        Ok(())
    }
}
