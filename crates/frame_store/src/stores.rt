//! The store.

ghost use Rattle.std.specs.Prelude.{max, ◌≡◌, ◌≢◌, ◌⊎◌, ◌↔◌, ◌+◌, ◌≤◌, ◌<◌, ◌^◌, ◌++◌, ◌∷◌, [], ℕ, List, true, false, length, IsTrue, IsOk, IfOk, IfErr, OnOk, OnErr, Some, None};
ghost use Rattle.fab_disk.specs.Changing.{Run, Still, IsAny};
ghost use Rattle.fab_disk.specs.Disk.{Elapses, IsUntouched, Kept, KeepsRoom, Only};
ghost use Rattle.fab_disk.specs.Plan.{IsRun, KeepsPlan};
ghost use Rattle.frame_store.specs.Layouts.{IsShape, shape_of, formed, is_old, index_half_size};
ghost use Rattle.frame_store.specs.Listed.{Fits, size_of, frame_of};
ghost use Rattle.frame_store.specs.Images.{IsNoStore, IsEmptyStore, HasSlot, AreBlocks, block_in};
ghost use Rattle.frame_store.specs.Ends.{end_of, ListChange, BringsOver};
ghost use Rattle.frame_store.specs.Stores.{Shows, IsRead, IsSame, HasNow, HasCome, IsAnswer, HasRoom, HasRoomAhead, blocks_ahead};

use crate::buffers::{closing, header_rest, shut_headers};
use crate::faults::{FrameFault, OpenFault};
use crate::frames::Frame;
use crate::listings::Listing;
use crate::lists::FrameList;
use crate::reading::read_store;
use crate::shapes::{Form, Half, Shape};
use crate::staging::{Sizes, make_room, stage, stage_list};
use crate::steps::{Placed, bring_gated, reserve, rewrite_gated, write_both_gated, write_gated};
use crate::takers::TakesFrames;
use fab_disk::{Armed, Disk, IoFault, Plan};
use std::alloc::Global;
use std::marker::Model;

/// An open store over a disk.
///
/// A clause sees the disk, what the store was made for, the list of frames, whether a closed gate stands after it, how long
/// the file is, and whether the store is halted.
#[derive(Drop)]
pub struct FrameStore<D: Disk> {
    disk: D,
    shape: Shape,
    half: Half,
    generation: u64,
    other_shut: bool,
    list: Listing,
    used: u64,
    closed: bool,
    size: u64,
    halted: bool,
    line: Vec<u8>,
}

impl<D: Disk> Model for FrameStore<D> {
    ghost use Rattle.std.specs.Prelude.{vec_capacity};
    ghost use Rattle.frame_store.specs.Stores.{Held};

    ghost Value = { Held D };

    ghost view = { λ s. record { disk = s.disk; shape = s.shape; frames = s.list.frames; closed = s.closed; size = s.size; halted = s.halted; room = record { line = vec_capacity s.line } } };

    ghost use Rattle.std.specs.Prelude.{◌≡◌, false, length};
    ghost use Rattle.frame_store.specs.Laid.{Laid, IsCounted};

    ghost invariant = { λ s. IsCounted s.shape s.list.frames s.used
        × (D.tells → s.halted ≡ false → Laid s.shape s.half s.generation s.other_shut s.list.frames s.closed (D.seen s.disk)
        × (length (D.seen s.disk) ≡ s.size)) };
}

/// Makes an empty store of these blocks and slots for a brick, in the place of whatever the disk holds. It makes five calls of
/// `write_at` and `sync`. What the disk opens as after a format that did not succeed is not told.
///
/// # Errors
/// [`FrameFault::Disk`]: the disk failed. [`FrameFault::NoMemory`]: memory was refused, and the disk is as it was.
pub fn format<D: Disk>(
    _alloc: Global,
    disk: &mut D,
    me: u16,
    block: u16,
    records: u32,
) -> Result<(), FrameFault>
    requires block_range { (1 ≤ block) × (block ≤ 4096) }
    requires records_range { (1 ≤ records) × (records ≤ 1048576) }
    ensures change { Run D.Disk 5 IsAny IsAny (IsEmptyStore (shape_of me block records)) disk.old disk.new (end_of result) }
    ensures only { OnErr result ((result ≡ Err FrameFault.Disk) ⊎ (result ≡ Err FrameFault.NoMemory)) }
{
    make(disk, new_shape(me, block, records))
}

/// Makes an empty store of the old format, in the place of whatever the disk holds. It makes five calls of `write_at` and `sync`.
/// What the disk opens as after a format that did not succeed is not told.
///
/// # Errors
/// [`FrameFault::Disk`]: the disk failed. [`FrameFault::NoMemory`]: memory was refused, and the disk is as it was.
pub fn format_one<D: Disk>(
    _alloc: Global,
    disk: &mut D,
    me: u16,
    block: u16,
    records: u32,
) -> Result<(), FrameFault>
    requires block_range { (1 ≤ block) × (block ≤ 4096) }
    requires records_range { (1 ≤ records) × (records ≤ 1048576) }
    ensures change { Run D.Disk 5 IsAny IsAny (IsEmptyStore (formed Form.Old (shape_of me block records))) disk.old disk.new (end_of result) }
    ensures only { OnErr result ((result ≡ Err FrameFault.Disk) ⊎ (result ≡ Err FrameFault.NoMemory)) }
{
    make(disk, new_shape(me, block, records).formed(Form::Old))
}

// Makes an empty store of this shape and form.
fn make<D: Disk>(disk: &mut D, shape: Shape) -> Result<(), FrameFault>
    requires { IsShape shape }
    ensures change { Run D.Disk 5 IsAny IsAny (IsEmptyStore shape) disk.old disk.new (end_of result) }
    ensures only { OnErr result ((result ≡ Err FrameFault.Disk) ⊎ (result ≡ Err FrameFault.NoMemory)) }
{
    let headers = shut_headers(shape);
    let first = shape.half_at(Half::A);
    reserve(disk, 5, 66, shape.end())?;
    write_both_gated(disk, 0, &headers, first, &[0], 0)
}

// What a new store is made for.
fn new_shape(me: u16, block: u16, records: u32) -> Shape
    ensures { result ≡ shape_of me block records }
{
    Shape {
        me,
        block,
        records,
        form: Form::New,
    }
}

/// Opens the store that a disk holds for a brick, with these blocks and slots, in whichever form it is, and hands on its frames,
/// one after another. It reads alone, as far as the first gate that is not open, and changes nothing.
///
/// # Errors
/// Each hands the disk back. [`OpenFault::NotAStore`]: neither header is open. [`OpenFault::Disk`]: the disk failed.
/// [`OpenFault::NoMemory`]: memory was refused.
pub fn open_store<D: Disk, T: TakesFrames>(
    alloc: Global,
    disk: D,
    me: u16,
    block: u16,
    records: u32,
    taker: &mut T,
) -> Result<FrameStore<D>, (OpenFault, D)>
    requires block_range { (1 ≤ block) × (block ≤ 4096) }
    requires records_range { (1 ≤ records) × (records ≤ 1048576) }
    ensures shape { IfOk result (λ store. store.shape ≡ formed store.shape.form (shape_of me block records)) }
    ensures runs { IfOk result (λ store. store.halted ≡ false) }
    // The frames are those that the disk opens as, and those that the taker took.
    ensures read { IfOk result (λ store. IsRead D.tells D.seen store) }
    ensures taken { IfOk result (λ store. T.makes taker.old (is_old store.shape) store.frames taker.new) }
    ensures still { IfOk result (λ store. Still D.Disk disk store.disk ⊥) }
    ensures still_err { IfErr result (λ e. Still D.Disk disk e.1 (e.0 ≡ OpenFault.Disk)) }
    ensures certain { IfOk result (λ store. D.certain store.disk ≡ D.certain disk) }
    ensures certain_err { IfErr result (λ e. D.certain e.1 ≡ D.certain disk) }
    ensures not_a_store { IfErr result (λ e. e.0 ≡ OpenFault.NotAStore → D.tells → IsNoStore (shape_of me block records) (D.seen disk)) }
{
    let shape = new_shape(me, block, records);
    let mut disk = disk;
    match read_store(alloc, &mut disk, shape, taker) {
        Ok(found) => Ok(FrameStore {
            disk,
            shape: shape.formed(found.header.form),
            half: found.half,
            generation: found.header.generation,
            other_shut: found.other_shut,
            list: found.listing,
            used: found.used,
            closed: found.closed,
            size: found.size,
            halted: false,
            line: Vec::new(alloc),
        }),
        Err(fault) => Err((fault, disk)),
    }
}

impl<D: Disk> FrameStore<D> {
    ghost use Rattle.frame_store.specs.Laid.{IsRenewed};

    /// What the store was made for.
    pub fn shape(&self) -> Shape
        ensures { result ≡ self.now.shape }
    {
        self.shape
    }

    /// Whether the store is of the old format. Such a store is read, and brought over: nothing is appended to it.
    pub fn is_old(&self) -> bool
        ensures { result ≡ is_old self.now.shape }
    {
        self.shape.is_old()
    }

    /// Whether a call of this store answered [`FrameFault::Disk`].
    pub fn is_halted(&self) -> bool
        ensures { result ≡ self.now.halted }
    {
        self.halted
    }

    /// Whether a closed gate stands after the last frame. Where none does, the list ended at the end of the file or within a
    /// frame: rewrite it before anything is appended, since what stands behind it might count as frames after a crash.
    pub fn is_closed(&self) -> bool
        ensures { result ≡ self.now.closed }
    {
        self.closed
    }

    /// Whether a frame with a body of this length, and the next gate, fit in the half of the index.
    #[tactic(auto, using(crate::proofs::Slots::half_is))]
    pub fn fits(&self, length: usize) -> bool
        requires { is_old self.now.shape ≡ false }
        ensures { IsTrue result ↔ Fits self.now.shape self.now.frames length }
    {
        let left = self.shape.half_size() - self.used;
        left >= 7 && length as u64 <= left - 7
    }

    /// Whether there is a slot of this number inside the file.
    pub fn has_slot(&self, slot: u32) -> bool
        requires { is_old self.now.shape ≡ false }
        ensures { IsTrue result ↔ HasSlot self.now.shape self.now.size slot }
    {
        slot < self.shape.records && self.shape.slot_at(slot + 1) <= self.size
    }

    /// Reads the block in a slot.
    ///
    /// # Errors
    /// [`FrameFault::Halted`], [`FrameFault::Disk`]; [`FrameFault::NoMemory`] where the disk answers it.
    pub fn read_slot(&mut self, slot: u32, into: &mut [u8]) -> Result<(), FrameFault>
        requires new { is_old self.old.shape ≡ false }
        requires slot { HasSlot self.old.shape self.old.size slot }
        requires block { length into.old ≡ self.old.shape.block }
        ensures bytes { D.tells → OnOk result (into.new ≡ block_in self.old.shape slot (D.seen self.old.disk)) }
        ensures same { IsSame self.old self.new }
        ensures still { Still D.Disk self.old.disk self.new.disk (result ≡ Err FrameFault.Disk) }
        ensures certain { D.certain self.new.disk ≡ D.certain self.old.disk }
        ensures answer { IsAnswer self.old.halted self.new.halted result }
        ensures no_call { result ≡ Err FrameFault.Halted → self.new ≡ self.old }
        ensures read { IsRead D.tells D.seen self.new }
    {
        if self.halted {
            return Err(FrameFault::Halted);
        }
        match self.disk.read_at(self.shape.slot_at(slot), into) {
            Ok(()) => Ok(()),
            Err(IoFault::NoMemory) => Err(FrameFault::NoMemory),
            Err(IoFault::Failed) => {
                self.halted = true;
                Err(FrameFault::Disk)
            }
        }
    }

    /// Appends a frame. It makes four calls of `write_at` and `sync`.
    ///
    /// # Errors
    /// [`FrameFault::Halted`], [`FrameFault::Disk`]; [`FrameFault::NoMemory`], before the disk changed.
    pub fn append(&mut self, kind: u8, body: &[u8]) -> Result<(), FrameFault>
        requires new { is_old self.old.shape ≡ false }
        requires fits { Fits self.old.shape self.old.frames (length body.now) }
        // One change of the list: each image shows it as it was before or as it is after.
        ensures change { ListChange D.Disk 4 self.old (self.old.frames ++ frame_of kind body.now ∷ []) None self.new.disk (end_of result) }
        ensures ok { OnOk result (HasNow (self.old.frames ++ frame_of kind body.now ∷ []) self.old self.new) }
        ensures answer { IsAnswer self.old.halted self.new.halted result }
        ensures refused { OnErr result (IsSame self.old self.new) }
        ensures no_call { result ≡ Err FrameFault.Halted → self.new ≡ self.old }
        ensures read { IsRead D.tells D.seen self.new }
        // Within what `reserve` made, memory is not refused.
        ensures room { HasRoom D.has_room self.old 4 (length body.now + 7) (length body.now + 6)
            → result ≢ Err FrameFault.NoMemory }
    {
        if self.halted {
            return Err(FrameFault::Halted);
        }
        let end = self.shape.end();
        stage(&mut self.disk, &mut self.line, kind, body, 4, 0, end)?;
        let gate = self.shape.half_at(self.half) + self.used;
        let bytes = self.line.len() as u64;
        match write_gated(&mut self.disk, gate + 1, &self.line, gate) {
            Ok(()) => {
                self.used += bytes;
                self.size = self.size.max(gate + 1 + bytes);
                self.closed = true;
                self.list = Listing::with(&self.list, &kind, body);
                Ok(())
            }
            Err(fault) => {
                self.halted = true;
                Err(fault)
            }
        }
    }

    /// Puts a block in a slot and appends a frame, which stands only where the block does. It makes five calls of `write_at`
    /// and `sync`.
    ///
    /// # Errors
    /// [`FrameFault::Halted`], [`FrameFault::Disk`]; [`FrameFault::NoMemory`], before the disk changed.
    pub fn append_with(&mut self, slot: u32, block: &[u8], frame: Frame) -> Result<(), FrameFault>
        requires new { is_old self.old.shape ≡ false }
        requires fits { Fits self.old.shape self.old.frames (length frame.body) }
        requires slot { slot < self.old.shape.records }
        requires block { length block.now ≡ self.old.shape.block }
        // One change of the list and of the slot: each image shows both as they were before or both as they are after.
        ensures change { ListChange D.Disk 5 self.old (self.old.frames ++ frame ∷ []) (Some (slot, block.now)) self.new.disk (end_of result) }
        ensures ok { OnOk result (HasNow (self.old.frames ++ frame ∷ []) self.old self.new) }
        ensures answer { IsAnswer self.old.halted self.new.halted result }
        ensures refused { OnErr result (IsSame self.old self.new) }
        ensures no_call { result ≡ Err FrameFault.Halted → self.new ≡ self.old }
        ensures read { IsRead D.tells D.seen self.new }
        // Within what `reserve` made, memory is not refused.
        ensures room { HasRoom D.has_room self.old 5 (self.old.shape.block + (length frame.body + 7)) (length frame.body + 6)
            → result ≢ Err FrameFault.NoMemory }
    {
        if self.halted {
            return Err(FrameFault::Halted);
        }
        let end = self.shape.end();
        let body = frame.body.as_slice();
        stage(
            &mut self.disk,
            &mut self.line,
            frame.kind,
            body,
            5,
            block.len(),
            end,
        )?;
        let at = self.shape.slot_at(slot);
        let gate = self.shape.half_at(self.half) + self.used;
        let bytes = self.line.len() as u64;
        match write_both_gated(&mut self.disk, at, block, gate + 1, &self.line, gate) {
            Ok(()) => {
                self.used += bytes;
                self.size = self.size.max(gate + 1 + bytes);
                self.closed = true;
                self.list = Listing::with(&self.list, &frame.kind, body);
                Ok(())
            }
            Err(fault) => {
                self.halted = true;
                Err(fault)
            }
        }
    }

    /// Puts a list of frames in the place of the one that is there. It makes seven calls of `write_at` and `sync`.
    ///
    /// # Errors
    /// [`FrameFault::Halted`], [`FrameFault::Disk`]; [`FrameFault::NoMemory`], before the disk changed.
    pub fn rewrite(&mut self, list: FrameList) -> Result<(), FrameFault>
        requires new { is_old self.old.shape ≡ false }
        requires fits { size_of list + 1 ≤ index_half_size self.old.shape }
        // One change of the list: each image shows it as it was before or as it is after.
        ensures change { ListChange D.Disk 7 self.old list None self.new.disk (end_of result) }
        // It stands in the other half, one generation later.
        ensures renewed { D.tells → OnOk result (IsRenewed self.old.shape (D.seen self.old.disk) (D.seen self.new.disk)) }
        ensures ok { OnOk result (HasNow list self.old self.new) }
        ensures answer { IsAnswer self.old.halted self.new.halted result }
        ensures refused { OnErr result (IsSame self.old self.new) }
        ensures no_call { result ≡ Err FrameFault.Halted → self.new ≡ self.old }
        ensures read { IsRead D.tells D.seen self.new }
        // Within what `reserve` made, memory is not refused, and what was made beyond this call is left.
        ensures room { HasRoom D.has_room self.old 7 (size_of list + 34) (size_of list + 1)
            → result ≢ Err FrameFault.NoMemory }
        ensures left { OnOk result ((calls bytes written : ℕ) → HasRoom D.has_room self.old (calls + 7)
            (bytes + (size_of list + 34)) written → HasRoom D.has_room self.new calls bytes written) }
    {
        if self.halted {
            return Err(FrameFault::Halted);
        }
        let end = self.shape.end();
        stage_list(&mut self.disk, &mut self.line, &list, 7, 0, end)?;
        // (Its bytes are given back: the line has them too.)
        let listing = list.into_listing();
        let other = self.half.other();
        let at = self.shape.half_at(other);
        let generation = self.generation.wrapping_add(1);
        let rest = header_rest(self.shape, generation);
        let shut = closing(self.other_shut);
        let bytes = self.line.len() as u64;
        let gate = other.header_at();
        match rewrite_gated(&mut self.disk, gate, shut, &rest, at, &self.line) {
            Ok(()) => {
                self.half = other;
                self.generation = generation;
                self.other_shut = false;
                self.used = bytes - 1;
                self.size = self.size.max(at + bytes);
                self.closed = true;
                self.list = listing;
                Ok(())
            }
            Err(fault) => {
                self.halted = true;
                Err(fault)
            }
        }
    }

    /// Brings an old store over: puts these blocks in the slots of the new format from slot 0 on, and this list in the index. The old
    /// list is left as it is, and counts until the new header's gate is open. It makes eight calls of `write_at` and `sync`.
    ///
    /// # Errors
    /// [`FrameFault::Halted`], [`FrameFault::Disk`]; [`FrameFault::NoMemory`], before the disk changed.
    pub fn bring_over(&mut self, blocks: &[u8], frames: FrameList) -> Result<(), FrameFault>
        requires old { is_old self.old.shape ≡ true }
        requires blocks { AreBlocks self.old.shape (length frames) blocks.now }
        requires fits { size_of frames + 1 ≤ index_half_size self.old.shape }
        // One change of the disk: each image opens as the old list, or as the new one with the blocks in their slots.
        ensures change { BringsOver D.Disk self.old frames blocks.now self.new.disk (end_of result) }
        ensures ok { OnOk result (HasCome frames self.old self.new) }
        ensures answer { IsAnswer self.old.halted self.new.halted result }
        ensures refused { OnErr result (IsSame self.old self.new) }
        ensures no_call { result ≡ Err FrameFault.Halted → self.new ≡ self.old }
        ensures read { IsRead D.tells D.seen self.new }
        // Within what `reserve` made, memory is not refused, and what was made beyond this call is left.
        ensures room { HasRoom D.has_room self.old 8 (length blocks.now + (size_of frames + 34)) (size_of frames + 1)
            → result ≢ Err FrameFault.NoMemory }
        ensures left { OnOk result ((calls bytes written : ℕ) → HasRoom D.has_room self.old (calls + 8)
            (bytes + (length blocks.now + (size_of frames + 34))) written → HasRoom D.has_room self.new calls bytes written) }
    {
        if self.halted {
            return Err(FrameFault::Halted);
        }
        let end = self.shape.end();
        stage_list(
            &mut self.disk,
            &mut self.line,
            &frames,
            8,
            blocks.len(),
            end,
        )?;
        // (Its bytes are given back: the line has them too.)
        let listing = frames.into_listing();
        let shape = self.shape.formed(Form::Moved);
        let other = self.half.other();
        let at = shape.half_at(other);
        let generation = self.generation.wrapping_add(1);
        let rest = header_rest(shape, generation);
        let shut = closing(self.other_shut);
        let bytes = self.line.len() as u64;
        let gate = other.header_at();
        let start = shape.slot_at(0);
        let blocks = Placed {
            at: start,
            bytes: blocks,
        };
        let list = Placed {
            at,
            bytes: &self.line,
        };
        match bring_gated(&mut self.disk, gate, shut, blocks, list, &rest, end) {
            Ok(()) => {
                self.shape = shape;
                self.half = other;
                self.generation = generation;
                self.other_shut = false;
                self.used = bytes - 1;
                self.size = self.size.max(at + bytes);
                self.closed = true;
                self.list = listing;
                Ok(())
            }
            Err(fault) => {
                self.halted = true;
                Err(fault)
            }
        }
    }

    /// Makes room in memory for the next `sync`, the next `rewrite` of a list equal to this one, and the next append of a body
    /// of this length with a block, made in this order with any of them left out: none of them then answers NoMemory. Where the
    /// store is old, `bring_over` takes the place of `rewrite`, with as many blocks as there are frames. It makes no call of
    /// `write_at` or `sync`.
    ///
    /// # Errors
    /// [`FrameFault::Halted`], [`FrameFault::Disk`]; [`FrameFault::NoMemory`].
    pub fn reserve(&mut self, list: &FrameList, body: usize) -> Result<(), FrameFault>
        requires fits { Fits self.old.shape list.now body }
        ensures same { IsSame self.old self.new }
        ensures still { Still D.Disk self.old.disk self.new.disk (result ≡ Err FrameFault.Disk) }
        ensures certain { D.certain self.new.disk ≡ D.certain self.old.disk }
        ensures answer { IsAnswer self.old.halted self.new.halted result }
        ensures no_call { result ≡ Err FrameFault.Halted → self.new ≡ self.old }
        ensures read { IsRead D.tells D.seen self.new }
        ensures room { OnOk result (HasRoomAhead D.has_room self.new list.now body) }
    {
        if self.halted {
            return Err(FrameFault::Halted);
        }
        let sizes = Sizes {
            blocks: self.blocks_ahead(list.len()),
            list: list.size(),
            block: self.shape.block as usize,
            body,
        };
        let calls = if self.shape.is_old() { 14 } else { 13 };
        let end = self.shape.end();
        make_room(&mut self.disk, &mut self.line, sizes, calls, end)
    }

    // How many bytes the blocks have that are written with so many frames as an old store is brought over.
    fn blocks_ahead(&self, frames: usize) -> usize
        ensures { result ≡ blocks_ahead self.now.shape frames }
    {
        if self.shape.is_old() {
            frames.min(self.shape.records as usize) * self.shape.block as usize
        } else {
            0
        }
    }

    /// Syncs the disk: after it a crash leaves what a read gives.
    ///
    /// # Errors
    /// [`FrameFault::Halted`], [`FrameFault::Disk`]; [`FrameFault::NoMemory`], where nothing changed.
    pub fn sync(&mut self) -> Result<(), FrameFault>
        ensures certain_now { D.tells → OnOk result (Only (D.seen self.new.disk) (D.may_leave self.new.disk)) }
        ensures same { IsSame self.old self.new }
        ensures content { D.seen self.new.disk ≡ D.seen self.old.disk }
        // A sync that did not succeed makes nothing certain.
        ensures certain { OnErr result (D.certain self.new.disk ≡ D.certain self.old.disk) }
        ensures crash { (image : List ℕ) → D.may_leave self.new.disk image → D.may_leave self.old.disk image }
        ensures time { Elapses (D.moment self.old.disk) (D.moment self.new.disk) (D.left_since self.old.disk) (D.left_since self.new.disk)
            (D.may_leave self.new.disk) }
        ensures run { IsRun D.tells D.moment D.plan D.unlisted 1 self.old.disk self.new.disk (IsOk result) (result ≡ Err FrameFault.Disk) }
        ensures answer { IsAnswer self.old.halted self.new.halted result }
        ensures no_memory { result ≡ Err FrameFault.NoMemory → IsUntouched D.seen D.may_leave D.moment D.left_since self.old.disk self.new.disk }
        ensures no_call { result ≡ Err FrameFault.Halted → self.new ≡ self.old }
        ensures cause { Kept (D.faults self.old.disk) (D.faults self.new.disk) (D.sound self.old.disk) (D.sound self.new.disk)
            (result ≡ Err FrameFault.Disk) }
        ensures read { IsRead D.tells D.seen self.new }
        // Within what `reserve` made, memory is not refused, and what was made beyond this call is left.
        ensures room { (calls bytes written : ℕ) → HasRoom D.has_room self.old (calls + 1) bytes written
            → result ≢ Err FrameFault.NoMemory }
        ensures left { OnOk result ((calls bytes written : ℕ) → HasRoom D.has_room self.old (calls + 1) bytes written
            → HasRoom D.has_room self.new calls bytes written) }
    {
        if self.halted {
            return Err(FrameFault::Halted);
        }
        match self.disk.sync() {
            Ok(()) => Ok(()),
            Err(IoFault::NoMemory) => Err(FrameFault::NoMemory),
            Err(IoFault::Failed) => {
                self.halted = true;
                Err(FrameFault::Disk)
            }
        }
    }

    /// The disk. It makes no call of it.
    pub fn into_disk(self) -> D
        ensures { result ≡ self.disk }
    {
        let FrameStore {
            disk,
            shape: _,
            half: _,
            generation: _,
            other_shut: _,
            list: _,
            used: _,
            closed: _,
            size: _,
            halted: _,
            line: _,
        } = self;
        disk
    }
}

impl<D: Armed> FrameStore<D> {
    /// Passes a plan on to the disk: see [`Armed::arm`].
    pub fn arm(&mut self, plan: Plan)
        ensures same { IsSame self.old self.new }
        ensures halted { self.new.halted ≡ self.old.halted }
        ensures content { D.seen self.new.disk ≡ D.seen self.old.disk }
        ensures crash { (image : List ℕ) → D.may_leave self.new.disk image → D.may_leave self.old.disk image }
        ensures planned { D.plan self.new.disk ≡ plan }
        ensures listed { D.unlisted self.old.disk → D.unlisted self.new.disk }
        ensures faults { D.faults self.new.disk ≡ D.faults self.old.disk }
        ensures room { KeepsRoom (D.has_room self.old.disk) (D.has_room self.new.disk) }
        ensures sound { plan ≡ Plan.Never → D.sound self.old.disk → D.sound self.new.disk }
        ensures again { plan ≡ Plan.Never → D.unlisted self.old.disk → D.sound self.new.disk }
    {
        self.disk.arm(plan);
    }
}
