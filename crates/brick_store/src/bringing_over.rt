//! What an old store is brought over to: its blocks in the slots from 0 on, and the frames that name them.

ghost use Rattle.std.specs.Prelude.{◌≡◌, ◌≢◌, ◌<◌, ℕ, Some, List, [], ◌∷◌, IfOk, OnOk, MatchOption, length, map};
ghost use Rattle.std.specs.List.{AllByRecursion};
ghost use Rattle.brick_state.specs.Indexes.{state_of, limits_of};
ghost use Rattle.brick_state.specs.Folds.{slot_named};
ghost use Rattle.brick_state.specs.KeptStates.{IsKeptState};
ghost use Rattle.brick_state.specs.States.{empty};
ghost use Rattle.brick_store.specs.BlockTables.{SlotBlocks};
ghost use Rattle.brick_store.specs.Blocks.{cached, resolved};
ghost use Rattle.brick_store.specs.BringingOver.{IsBroughtTo};
ghost use Rattle.brick_store.specs.Images.{record_of, limits_for};
ghost use Rattle.brick_store.specs.MovingBlocks.{AreGiven, AreMoved, IsPut};
ghost use Rattle.brick_store.specs.Openings.{memory_limits};
ghost use Rattle.brick_store.specs.Renumbering.{blocks_over, brought, given_by, given_by_record, given_with, is_new, logged_over, number_in, record_over, records_over, slot_for};
ghost use Rattle.brick_store.specs.Standing.{AllSlots, GroupHasMembers, IsCached};
ghost use Rattle.brick_store.specs.Steps.{RecordHasMembers};

use crate::block_tables::BlockTable;
use crate::readings::Folded;
use crate::rewrites::{LISTED, frame_of};
use brick_state::{Index, Record, ZERO_SLOT};
use fab_base::{Bytes, NoMem};
use frame_store::FrameList;
use stamp_store::{LogChange, Logged};
use std::alloc::Global;
use std::marker::Model;

/// What an old store is brought over to: its index, its blocks by their slots and one after the other, and its frames.
#[derive(Drop)]
pub(crate) struct Brought {
    pub(crate) index: Index,
    pub(crate) blocks: BlockTable,
    pub(crate) bytes: Vec<u8>,
    pub(crate) frames: FrameList,
}

/// What was put behind each other so far: the index that the records make, their blocks by their slots, and their frames.
#[derive(Drop)]
struct BroughtSoFar {
    index: Index,
    blocks: BlockTable,
    frames: FrameList,
}

/// How many records are taken before the memory of those that were is given back.
const GIVEN_BACK: usize = 65_536;

/// Records that are taken one after the other. The next is the last of the vector, so that the memory of those that were taken can be
/// given back: they are large, and what is made of them grows.
#[derive(Drop)]
struct Remaining {
    turned: Vec<Record>,
}

impl Model for Remaining {
    ghost use Rattle.std.specs.Prelude.{List, reverse};
    ghost use Rattle.brick_state.specs.declared.records.Record.{Record};

    ghost Value = { List Record };

    ghost view = { λ left. reverse left.turned.items };
}

impl Remaining {
    /// All of them are left.
    #[tactic(auto, using(crate::proofs::Turned::turned_back))]
    fn new(records: Vec<Record>) -> Remaining
        ensures { result ≡ records.items }
    {
        let mut turned = records;
        turned.reverse();
        Remaining { turned }
    }

    /// Takes the next, if one is left.
    #[tactic(auto, using(crate::proofs::Turned::turned_next, crate::proofs::Turned::turned_none))]
    fn next(&mut self) -> Option<Record>
        ensures { MatchOption result (self.old ≡ []) (λ item. self.old ≡ item ∷ self.new) }
    {
        match self.turned.pop() {
            Some(item) => {
                self.give_back();
                Some(item)
            }
            None => None,
        }
    }

    /// Gives memory back now and then.
    fn give_back(&mut self)
        ensures { self.new ≡ self.old }
    {
        if self.turned.len() % GIVEN_BACK == 0 {
            self.turned.shrink_to_fit();
        }
    }
}

/// The slots that blocks go to, by the numbers that they had: each block gets the next slot when it is named first.
#[derive(Drop)]
struct Slots {
    moved: Vec<u32>,
    next: u32,
}

impl Slots {
    /// None is given yet, of so many numbers.
    fn new(alloc: Global, numbers: u32) -> Result<Slots, NoMem>
        ensures given { IfOk result (λ made. AreGiven [] made.moved.items made.next) }
        ensures numbers { IfOk result (λ made. length made.moved.items ≡ numbers) }
    {
        let moved = vec![in alloc; ZERO_SLOT; numbers as usize]?;
        Ok(Slots { moved, next: 0 })
    }

    /// The slot of a number, and whether it was given just now. The zero block lies in no slot.
    fn of(&mut self, number: u32) -> (u32, bool)
        requires named { number ≢ 4294967295 → number < length self.old.moved.items }
        requires few { self.old.next < 4294967295 }
        ensures numbers { length self.new.moved.items ≡ length self.old.moved.items }
        ensures given { (given : List ℕ) → AreGiven given self.old.moved.items self.old.next
            → AreGiven (given_with given number) self.new.moved.items self.new.next }
        ensures slot { (given : List ℕ) → AreGiven given self.old.moved.items self.old.next → result.0 ≡ slot_for (given_with given number) number }
        ensures new { (given : List ℕ) → AreGiven given self.old.moved.items self.old.next → result.1 ≡ is_new given number }
    {
        if number == ZERO_SLOT {
            return (ZERO_SLOT, false);
        }
        let slot = self.moved[number as usize];
        if slot != ZERO_SLOT {
            return (slot, false);
        }
        let slot = self.next;
        self.moved[number as usize] = slot;
        self.next += 1;
        (slot, true)
    }
}

/// Records of an old store that are put behind each other with new slots, and the blocks that were not moved yet, by their numbers.
#[derive(Drop)]
struct Bringing {
    alloc: Global,
    slots: Slots,
    held: BlockTable,
    brought: BroughtSoFar,
}

/// What the state that an old list made is brought over to.
pub(crate) fn bring_over(alloc: Global, folded: Folded) -> Result<Brought, NoMem>
    requires kept { IsKeptState (memory_limits folded.sizes.records) (state_of folded.index) }
    requires held { AllSlots (IsCached folded.sizes.block folded.blocks) (state_of folded.index) }
    requires members { AllByRecursion GroupHasMembers (state_of folded.index).groups }
    requires limits { limits_of folded.index ≡ memory_limits folded.sizes.records }
    ensures state { IfOk result (λ made. state_of made.index ≡ brought (state_of folded.index)) }
    // The frames are those that bring back this state, and the blocks lie one after the other, as they do in memory.
    ensures frames { IfOk result (λ made. map record_of made.frames ≡ map Some (records_over (brought (state_of folded.index)))) }
    ensures bytes { IfOk result (λ made. made.bytes.items ≡ blocks_over (cached folded.sizes.block folded.blocks) (state_of folded.index)) }
    // And the state with its blocks is the one that the old list made.
    ensures over { IfOk result (λ made. IsBroughtTo folded.sizes.block folded.sizes.records (resolved (cached folded.sizes.block folded.blocks) (state_of folded.index))
        (limits_of made.index) (state_of made.index) made.blocks made.bytes.items made.frames) }
{
    let Folded {
        index,
        blocks,
        sizes,
        ..
    } = folded;
    let numbers = index.named_end();
    let records = records_over(&index)?;
    // (It may be large, and the one that is made now is, too.)
    drop(index);
    let slots = Slots::new(alloc, numbers)?;
    let mut bringing = Bringing::new(alloc, sizes.records, slots, blocks, records.len())?;
    let mut remaining = Remaining::new(records);
    while let Some(item) = remaining.next() {
        bringing.bring(&item)?;
    }
    let Bringing {
        slots,
        held,
        brought,
        ..
    } = bringing;
    // (So may the table be that the blocks came from.)
    drop(held);
    let BroughtSoFar {
        index,
        blocks,
        frames,
    } = brought;
    let bytes = blocks.joined(alloc, slots.next, sizes.block)?;
    Ok(Brought {
        index,
        blocks,
        bytes,
        frames,
    })
}

/// The records that bring back what is kept, but for the count of openings where none is kept.
fn records_over(index: &Index) -> Result<Vec<Record>, NoMem>
    ensures { IfOk result (λ made. made.items ≡ records_over (state_of index.now)) }
{
    let mut records = index.records()?;
    if index.boot() == 0 {
        records.remove(0);
    }
    Ok(records)
}

impl Bringing {
    /// None is put yet.
    fn new(
        alloc: Global,
        records: u32,
        slots: Slots,
        held: BlockTable,
        room: usize,
    ) -> Result<Bringing, NoMem>
        ensures slots { IfOk result (λ made. made.slots ≡ slots) }
        ensures held { IfOk result (λ made. made.held ≡ held) }
        ensures limits { IfOk result (λ made. limits_of made.brought.index ≡ limits_for records) }
        ensures nothing { IfOk result (λ made. state_of made.brought.index ≡ empty) }
        ensures blocks { IfOk result (λ made. made.brought.blocks ≡ []) }
        ensures frames { IfOk result (λ made. made.brought.frames ≡ []) }
    {
        let brought = BroughtSoFar {
            index: Index::new(alloc, records, records)?,
            blocks: BlockTable::with_room(alloc, room)?,
            frames: FrameList::with_room(alloc, room.saturating_mul(LISTED))?,
        };
        Ok(Bringing {
            alloc,
            slots,
            held,
            brought,
        })
    }

    /// Takes a record more, with the slot that its block goes to.
    fn bring(&mut self, item: &Record) -> Result<(), NoMem>
        requires members { RecordHasMembers item.now }
        requires named { number_in item.now ≢ 4294967295 → number_in item.now < length self.old.slots.moved.items }
        requires few { self.old.slots.next < 4294967295 }
        ensures numbers { length self.new.slots.moved.items ≡ length self.old.slots.moved.items }
        ensures limits { limits_of self.new.brought.index ≡ limits_of self.old.brought.index }
        ensures given { OnOk result ((given : List ℕ) → AreGiven given self.old.slots.moved.items self.old.slots.next
            → AreGiven (given_by_record item.now given) self.new.slots.moved.items self.new.slots.next) }
        ensures moved { OnOk result ((size : ℕ) (before : SlotBlocks) (given : List ℕ) → AreGiven given self.old.slots.moved.items self.old.slots.next
            → AreMoved size before given self.old.held self.old.brought.blocks → IsCached size before (number_in item.now)
            → AreMoved size before (given_by_record item.now given) self.new.held self.new.brought.blocks) }
        ensures put { OnOk result ((given : List ℕ) → AreGiven given self.old.slots.moved.items self.old.slots.next
            → IsPut (limits_of self.old.brought.index) (record_over (given_by_record item.now given) item.now) self.old.brought.frames
            self.new.brought.frames (state_of self.old.brought.index) (state_of self.new.brought.index)) }
    {
        match item {
            Record::Kept(_) => self.brought.put(self.alloc, item),
            Record::Logged(logged) => {
                let logged = self.take_block(*logged)?;
                self.brought.put(self.alloc, &Record::Logged(logged))
            }
        }
    }

    /// The change of a log with the slot that its block goes to, and the block in it.
    fn take_block(&mut self, logged: Logged) -> Result<Logged, NoMem>
        requires named { slot_named logged.change ≢ 4294967295 → slot_named logged.change < length self.old.slots.moved.items }
        requires few { self.old.slots.next < 4294967295 }
        ensures numbers { length self.new.slots.moved.items ≡ length self.old.slots.moved.items }
        ensures index { self.new.brought.index ≡ self.old.brought.index }
        ensures frames { self.new.brought.frames ≡ self.old.brought.frames }
        ensures given { IfOk result (λ now. (given : List ℕ) → AreGiven given self.old.slots.moved.items self.old.slots.next
            → AreGiven (given_by logged.change given) self.new.slots.moved.items self.new.slots.next) }
        ensures moved { IfOk result (λ now. (size : ℕ) (before : SlotBlocks) (given : List ℕ) → AreGiven given self.old.slots.moved.items self.old.slots.next
            → AreMoved size before given self.old.held self.old.brought.blocks → IsCached size before (slot_named logged.change)
            → AreMoved size before (given_by logged.change given) self.new.held self.new.brought.blocks) }
        ensures slot { IfOk result (λ now. (given : List ℕ) → AreGiven given self.old.slots.moved.items self.old.slots.next
            → now ≡ logged_over (given_by logged.change given) logged) }
    {
        let LogChange::Slot {
            bottom,
            slot: number,
        } = logged.change
        else {
            return Ok(logged);
        };
        let (slot, is_new) = self.slots.of(number);
        if is_new {
            if let Some(block) = self.held.take(number) {
                self.brought.blocks.hold(slot, block)?;
            }
        }
        let change = LogChange::Slot { bottom, slot };
        Ok(Logged { change, ..logged })
    }
}

impl BroughtSoFar {
    /// Adds a record: its frame, and its change.
    #[tactic(auto, using(crate::proofs::Counting::most_few))]
    fn put(&mut self, alloc: Global, item: &Record) -> Result<(), NoMem>
        requires { RecordHasMembers item.now }
        ensures put { OnOk result (IsPut (limits_of self.old.index) item.now self.old.frames self.new.frames (state_of self.old.index)
            (state_of self.new.index)) }
        ensures limits { limits_of self.new.index ≡ limits_of self.old.index }
        ensures blocks { self.new.blocks ≡ self.old.blocks }
    {
        let frame = frame_of(alloc, item)?;
        self.frames.push(&frame)?;
        self.index.apply(item)?;
        Ok(())
    }
}
