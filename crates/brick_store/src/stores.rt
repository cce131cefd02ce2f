//! The store.

ghost use Rattle.std.specs.Prelude.{◌≡◌, ◌<◌, ◌≤◌, Some, None, IsSome, Err, IsOk, true, false, length};
ghost use Rattle.std.specs.Option.{ForSome};
ghost use Rattle.fab_base.specs.Layouts.{most_groups};
ghost use Rattle.brick_state.specs.States.{stripe_at, ordered, collected, viewed, balloted, group_at};
ghost use Rattle.brick_state.specs.Folds.{place};
ghost use Rattle.brick_store.specs.Blocks.{log_at, version_stamp, HasStamp, IsServed, adds_stamp, IsNext, with_version, accepted_of, learnt_of, all_synced};
ghost use Rattle.brick_store.specs.Calls.{append_calls, version_calls, calls_of};
ghost use Rattle.brick_store.specs.PlainChanges.{CanMake, adds_record, made_by};
ghost use Rattle.brick_store.specs.Sizes.{ballots_size, body_size, view_size, known_size, stamped_size, version_size};
ghost use Rattle.brick_store.specs.Changes.{Answers};
ghost use Rattle.brick_store.specs.Ends.{end_of, BrickChange};

use crate::additions::{forget_refused, held_under, hold_new};
use crate::block_tables::BlockTable;
use crate::commits::{commit, ready};
use crate::faults::StoreFault;
use crate::index_steps::{accepted_of, adds_stamp, learnt_view};
use brick_state::{Index, Record};
use fab_base::{Ballot, Bytes, GroupId, Members, Stamp, StripeNo, View, ViewNo};
use fab_disk::Disk;
use frame_store::FrameStore;
use stamp_store::{Kept, LogChange, Logged};
use std::alloc::Global;
use std::marker::Model;

/// An open store over a disk.
///
/// A change makes four calls of `write_at` and `sync`, five where it adds a version with a block of its own, and seven more
/// where the list of frames has to be rewritten first.
///
/// In memory it holds the blocks of its versions. One that no version names any more stays until its slot is written again: so
/// there are never more than slots.
///
/// A clause sees the disk, what the store was made for, what it keeps, and whether it is halted.
#[derive(Drop)]
pub struct BrickStore<D: Disk> {
    pub(crate) alloc: Global,
    pub(crate) frames: FrameStore<D>,
    pub(crate) index: Index,
    pub(crate) blocks: BlockTable,
    pub(crate) zero: Bytes,
}

impl<D: Disk> Model for BrickStore<D> {
    ghost use Rattle.brick_store.specs.Bricks.{Brick};
    ghost use Rattle.brick_store.specs.Blocks.{resolved, cached};
    ghost use Rattle.brick_state.specs.Indexes.{state_of};
    ghost use Rattle.frame_store.specs.Listed.{size_of};
    ghost use Rattle.frame_store.specs.Layouts.{formed};
    ghost use Rattle.frame_store.specs.declared.shapes.Form.TheVariants.{New};

    ghost Value = { Brick D };

    ghost view = { λ s. record {
      disk = s.frames.disk;
      shape = formed New s.frames.shape;
      state = resolved (cached s.frames.shape.block s.blocks)
          (state_of s.index);
      listed = size_of s.frames.frames;
      halted = s.frames.halted;
    } };

    ghost use Rattle.brick_store.specs.Standing.{Standing};

    ghost invariant = { λ s. Standing D.tells D.seen D.may_leave s.frames s.index s.blocks s.zero };
}

impl<D: Disk> BrickStore<D> {
    /// Sets the order stamp of a stripe.
    ///
    /// # Errors
    /// [`StoreFault::Halted`], [`StoreFault::Full`], [`StoreFault::Disk`]; [`StoreFault::NoMemory`], before the disk changed.
    pub fn set_order(
        &mut self,
        group: GroupId,
        view: ViewNo,
        stripe: StripeNo,
        stamp: Stamp,
    ) -> Result<(), StoreFault>
        requires group { group.0 < most_groups }
        requires view { IsServed (group_at self.old.state group.0) view.0 }
        ensures change { BrickChange D.Disk (calls_of self.old stamped_size append_calls) self.old
            (ordered (place group view stripe) stamp self.old.state) self.new.disk (end_of result) }
        ensures answer { Answers self.old self.new (ordered (place group view stripe) stamp self.old.state) stamped_size
            (adds_stamp stamp (stripe_at self.old.state (place group view stripe)).order) result }
    {
        let place = (group.0, view.0, stripe.0);
        let adds = adds_stamp(stamp, self.index.order(place));
        let item = Record::Kept(Kept::Order {
            group,
            view,
            stripe,
            stamp,
        });
        self.change(&item, adds)
    }

    /// Promises a ballot for the successor of the learnt view.
    ///
    /// # Errors
    /// [`StoreFault::Halted`], [`StoreFault::Disk`]; [`StoreFault::NoMemory`], before the disk changed.
    pub fn set_ballot(
        &mut self,
        group: GroupId,
        view: ViewNo,
        promised: Ballot,
    ) -> Result<(), StoreFault>
        requires group { group.0 < most_groups }
        requires view { view.0 ≡ learnt_of (group_at self.old.state group.0) }
        ensures change { BrickChange D.Disk (calls_of self.old (ballots_size (accepted_of (group_at self.old.state group.0))) append_calls) self.old
            (balloted group.0 promised (accepted_of (group_at self.old.state group.0)) self.old.state) self.new.disk (end_of result) }
        ensures answer { Answers self.old self.new (balloted group.0 promised (accepted_of (group_at self.old.state group.0)) self.old.state)
            (ballots_size (accepted_of (group_at self.old.state group.0))) false result }
    {
        let accepted = accepted_of(self.index.group(group.0));
        let item = Record::Kept(Kept::Ballots {
            group,
            view,
            promised,
            accepted,
        });
        self.change(&item, false)
    }

    /// Accepts a list of members as the successor of the learnt view, under a ballot that it also promises.
    ///
    /// # Errors
    /// [`StoreFault::Halted`], [`StoreFault::Disk`]; [`StoreFault::NoMemory`], before the disk changed.
    pub fn accept(
        &mut self,
        group: GroupId,
        view: ViewNo,
        ballot: Ballot,
        members: Members,
    ) -> Result<(), StoreFault>
        requires group { group.0 < most_groups }
        requires view { view.0 ≡ learnt_of (group_at self.old.state group.0) }
        requires members { 1 ≤ length members }
        ensures change { BrickChange D.Disk (calls_of self.old (ballots_size (Some (ballot, members))) append_calls) self.old
            (balloted group.0 ballot (Some (ballot, members)) self.old.state) self.new.disk (end_of result) }
        ensures answer { Answers self.old self.new (balloted group.0 ballot (Some (ballot, members)) self.old.state)
            (ballots_size (Some (ballot, members))) false result }
    {
        let item = Record::Kept(Kept::Ballots {
            group,
            view,
            promised: ballot,
            accepted: Some((ballot, members)),
        });
        self.change(&item, false)
    }

    /// Learns a view above the learnt one: what was promised and accepted is forgotten, and the logs of the views below its
    /// predecessor are dropped.
    ///
    /// # Errors
    /// [`StoreFault::Halted`], [`StoreFault::Disk`]; [`StoreFault::NoMemory`], before the disk changed.
    pub fn learn(&mut self, group: GroupId, view: View) -> Result<(), StoreFault>
        requires group { group.0 < most_groups }
        requires above { learnt_of (group_at self.old.state group.0) < view.number.0 }
        requires members { (1 ≤ length view.members) × (1 ≤ length view.prior) }
        ensures change { BrickChange D.Disk (calls_of self.old (view_size view) append_calls) self.old
            (viewed group.0 view false self.old.state) self.new.disk (end_of result) }
        ensures answer { Answers self.old self.new (viewed group.0 view false self.old.state)
            (view_size view) false result }
    {
        let item = Record::Kept(Kept::View {
            group,
            view,
            synced: false,
        });
        self.change(&item, false)
    }

    /// Keeps that all stripes of a group are known to be in the view that it learnt, and drops the logs of the view before it.
    ///
    /// # Errors
    /// [`StoreFault::Halted`], [`StoreFault::Disk`]; [`StoreFault::NoMemory`], before the disk changed.
    pub fn synced(&mut self, group: GroupId, view: ViewNo) -> Result<(), StoreFault>
        requires group { group.0 < most_groups }
        requires view { view.0 ≡ learnt_of (group_at self.old.state group.0) }
        requires learnt { IsSome (group_at self.old.state group.0).known }
        ensures change { BrickChange D.Disk (calls_of self.old (known_size (group_at self.old.state group.0).known) append_calls) self.old
            (all_synced group.0 self.old.state) self.new.disk (end_of result) }
        ensures answer { Answers self.old self.new (all_synced group.0 self.old.state)
            (known_size (group_at self.old.state group.0).known) false result }
    {
        let _ = view;
        let item = Record::Kept(Kept::View {
            group,
            view: learnt_view(self.index.group(group.0)),
            synced: true,
        });
        self.change(&item, false)
    }

    /// Drops the versions of a stripe below one that it has.
    ///
    /// # Errors
    /// [`StoreFault::Halted`], [`StoreFault::Disk`]; [`StoreFault::NoMemory`], before the disk changed.
    pub fn collect(
        &mut self,
        group: GroupId,
        view: ViewNo,
        stripe: StripeNo,
        stamp: Stamp,
    ) -> Result<(), StoreFault>
        requires group { group.0 < most_groups }
        requires view { IsServed (group_at self.old.state group.0) view.0 }
        requires held { HasStamp stamp (log_at self.old.shape.block self.old.state (place group view stripe)) }
        ensures change { BrickChange D.Disk (calls_of self.old stamped_size append_calls) self.old
            (collected version_stamp (place group view stripe) stamp self.old.state) self.new.disk (end_of result) }
        ensures answer { Answers self.old self.new (collected version_stamp (place group view stripe) stamp self.old.state)
            stamped_size false result }
    {
        let item = Record::Logged(Logged {
            group,
            view,
            stripe,
            stamp,
            change: LogChange::Collect,
        });
        self.change(&item, false)
    }

    /// Adds a version to the log of a stripe, with this block, or with the newest version's where none is given.
    ///
    /// # Errors
    /// [`StoreFault::Halted`], [`StoreFault::Full`], [`StoreFault::Disk`]; [`StoreFault::NoMemory`], before the disk changed.
    pub fn add_version(
        &mut self,
        group: GroupId,
        view: ViewNo,
        stripe: StripeNo,
        stamp: Stamp,
        block: Option<Bytes>,
    ) -> Result<(), StoreFault>
        requires group { group.0 < most_groups }
        requires view { IsServed (group_at self.old.state group.0) view.0 }
        requires above { IsNext stamp (log_at self.old.shape.block self.old.state (place group view stripe)) block }
        requires block { ForSome block (λ bytes. length bytes ≡ self.old.shape.block) }
        ensures change { BrickChange D.Disk (calls_of self.old (version_size block) (version_calls block)) self.old
            (with_version self.old.shape.block (place group view stripe) stamp block self.old.state) self.new.disk (end_of result) }
        ensures answer { Answers self.old self.new (with_version self.old.shape.block (place group view stripe) stamp block self.old.state)
            (version_size block) true result }
    {
        match block {
            Some(bytes) => self.add_block(group, view, stripe, stamp, bytes),
            None => self.add_same(group, view, stripe, stamp),
        }
    }

    // Makes the change of a record that puts no block of its own in a slot; `adds` says whether it adds a live record.
    fn change(&mut self, item: &Record, adds: bool) -> Result<(), StoreFault>
        requires can { CanMake self.old.shape.block item.now self.old.state }
        requires adds { adds ≡ adds_record item.now self.old.state }
        ensures change { BrickChange D.Disk (calls_of self.old (body_size item.now) append_calls) self.old
            (made_by self.old.shape.block item.now self.old.state) self.new.disk (end_of result) }
        ensures answer { Answers self.old self.new (made_by self.old.shape.block item.now self.old.state)
            (body_size item.now) (adds_record item.now self.old.state) result }
    {
        ready(&self.frames, &self.index, adds)?;
        commit(self.alloc, &mut self.frames, &mut self.index, item, None)
    }

    // Adds a version with the newest version's block.
    fn add_same(
        &mut self,
        group: GroupId,
        view: ViewNo,
        stripe: StripeNo,
        stamp: Stamp,
    ) -> Result<(), StoreFault>
        requires group { group.0 < most_groups }
        requires above { IsNext stamp (log_at self.old.shape.block self.old.state (place group view stripe)) None }
        ensures change { BrickChange D.Disk (calls_of self.old stamped_size append_calls) self.old
            (with_version self.old.shape.block (place group view stripe) stamp None self.old.state) self.new.disk (end_of result) }
        ensures answer { Answers self.old self.new (with_version self.old.shape.block (place group view stripe) stamp None self.old.state)
            stamped_size true result }
    {
        let item = Record::Logged(Logged {
            group,
            view,
            stripe,
            stamp,
            change: LogChange::Same,
        });
        self.change(&item, true)
    }

    // Adds a version with a block of its own, which is held as it was given: nothing is copied between the call and the disk.
    fn add_block(
        &mut self,
        group: GroupId,
        view: ViewNo,
        stripe: StripeNo,
        stamp: Stamp,
        block: Bytes,
    ) -> Result<(), StoreFault>
        requires group { group.0 < most_groups }
        requires above { IsNext stamp (log_at self.old.shape.block self.old.state (place group view stripe)) (Some block) }
        requires block { length block ≡ self.old.shape.block }
        ensures change { BrickChange D.Disk (calls_of self.old (version_size (Some block)) (version_calls (Some block))) self.old
            (with_version self.old.shape.block (place group view stripe) stamp (Some block) self.old.state) self.new.disk (end_of result) }
        ensures answer { Answers self.old self.new (with_version self.old.shape.block (place group view stripe) stamp (Some block) self.old.state)
            (version_size (Some block)) true result }
    {
        ready(&self.frames, &self.index, true)?;
        let slot = hold_new(&self.index, &mut self.blocks, block)?;
        let item = Record::Logged(Logged {
            group,
            view,
            stripe,
            stamp,
            change: LogChange::Slot {
                bottom: false,
                slot,
            },
        });
        let answer = commit(
            self.alloc,
            &mut self.frames,
            &mut self.index,
            &item,
            Some((slot, held_under(&self.blocks, slot))),
        );
        forget_refused(&mut self.blocks, slot, answer)
    }
}
