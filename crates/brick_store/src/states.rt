//! What a store tells of one stripe. No look-up needs memory.

ghost use Rattle.std.specs.Prelude.{◌≡◌, ◌<◌, ◌^◌, length, find, option_map, option_copied};
ghost use Rattle.version_log.specs.Versions.{version, block_of, newest, below, has_stamp};
ghost use Rattle.brick_state.specs.States.{stripe_at, last};
ghost use Rattle.brick_state.specs.Folds.{place};
ghost use Rattle.brick_store.specs.Blocks.{log_at};
ghost use Rattle.brick_store.specs.Logs.{added_in, held, start_held, IsHeld};

use crate::block_tables::BlockTable;
use crate::stores::BrickStore;
use brick_state::{Entry, ZERO_SLOT};
use fab_base::{Bytes, GroupId, Stamp, StripeNo, ViewNo};
use fab_disk::Disk;
use std::marker::Model;
use version_log::{Version, VersionLog};

/// The order stamp of a stripe, and its log: versions with rising stamps, each with its block.
///
/// A stripe of view 1 begins with the zero block under [`Stamp::FIRST`].
#[derive(Drop)]
pub struct State<'a> {
    order: Stamp,
    from_start: bool,
    added: Option<&'a VersionLog<u32>>,
    blocks: &'a BlockTable,
    zero: &'a Bytes,
}

impl<'a> Model for State<'a> {
    ghost use Rattle.std.specs.Prelude.{option_copied};
    ghost use Rattle.brick_store.specs.Logs.{StripeLog, added_in, log_held, AllHeld};

    ghost Value = { StripeLog };

    ghost view = { λ s. record { order = s.order; log = log_held s.zero.now s.blocks.now s.from_start (added_in (option_copied s.added)) } };

    ghost invariant = { λ s. AllHeld s.blocks.now (added_in (option_copied s.added)) };
}

impl<'a> State<'a> {
    /// The greatest stamp promised.
    pub fn order(&self) -> Stamp
        ensures { result ≡ self.now.order }
    {
        self.order
    }

    /// How many versions there are.
    pub fn len(&self) -> usize
        ensures { result ≡ length self.now.log }
    {
        count_in(self.added) + self.from_start as usize
    }

    /// The version with the greatest stamp, and its block.
    pub fn newest(&self) -> Option<(Stamp, &Bytes)>
        ensures { option_map (λ found. version found.0 found.1.now) result ≡ newest self.now.log }
    {
        match newest_in(self.added) {
            Some(entry) => Some((entry.stamp, block_in(self.zero, self.blocks, entry.block))),
            None => start_of(self.zero, self.from_start),
        }
    }

    /// The version with the greatest stamp below the bound, and its block.
    pub fn below(&self, bound: Stamp) -> Option<(Stamp, &Bytes)>
        ensures { option_map (λ found. version found.0 found.1.now) result ≡ below bound self.now.log }
    {
        match below_in(self.added, bound) {
            Some(entry) => Some((entry.stamp, block_in(self.zero, self.blocks, entry.block))),
            None => start_below(self.zero, self.from_start, bound),
        }
    }

    /// The block of the version with this stamp.
    pub fn at(&self, stamp: Stamp) -> Option<&Bytes>
        ensures { option_copied result ≡ option_map block_of (find (has_stamp stamp) self.now.log) }
    {
        if let Some(block) = start_at(self.zero, self.from_start, stamp) {
            return Some(block);
        }
        match slot_in(self.added, stamp) {
            Some(slot) => Some(block_in(self.zero, self.blocks, slot)),
            None => None,
        }
    }
}

impl<D: Disk> BrickStore<D> {
    /// What is kept of a stripe in a view. Where nothing happened, or its logs are dropped, it is what a stripe begins with.
    pub fn state(&self, group: GroupId, view: ViewNo, stripe: StripeNo) -> State<'_>
        ensures order { result.order ≡ (stripe_at self.now.state (place group view stripe)).order }
        ensures log { result.log ≡ log_at self.now.shape.block self.now.state (place group view stripe) }
    {
        let zero = &self.zero;
        let blocks = &self.blocks;
        match self.index.stripe((group.0, view.0, stripe.0)) {
            Some(kept) => State {
                order: kept.order,
                from_start: kept.from_start,
                added: Some(&kept.added),
                blocks,
                zero,
            },
            None => State {
                order: Stamp::FIRST,
                from_start: view.0 == 1,
                added: None,
                blocks,
                zero,
            },
        }
    }
}

// The block in a slot.
fn block_in<'a>(zero: &'a Bytes, blocks: &'a BlockTable, slot: u32) -> &'a Bytes
    requires { IsHeld blocks.now slot }
    ensures { result.now ≡ held zero.now blocks.now slot }
{
    if slot == ZERO_SLOT {
        return zero;
    }
    match blocks.get(slot) {
        Some(block) => block,
        None => unreachable!(),
    }
}

// The version that a stripe begins with, while it is there.
fn start_of(zero: &Bytes, from_start: bool) -> Option<(Stamp, &Bytes)>
    ensures { option_map (λ found. version found.0 found.1.now) result ≡ newest (start_held zero.now from_start) }
{
    if from_start {
        Some((Stamp::FIRST, zero))
    } else {
        None
    }
}

// That version, where its stamp is below the bound.
fn start_below(zero: &Bytes, from_start: bool, bound: Stamp) -> Option<(Stamp, &Bytes)>
    ensures { option_map (λ found. version found.0 found.1.now) result ≡ below bound (start_held zero.now from_start) }
{
    if from_start && Stamp::FIRST.is_below(bound) {
        Some((Stamp::FIRST, zero))
    } else {
        None
    }
}

// The block of that version, where this is its stamp.
fn start_at(zero: &Bytes, from_start: bool, stamp: Stamp) -> Option<&Bytes>
    ensures { option_copied result ≡ option_map block_of (find (has_stamp stamp) (start_held zero.now from_start)) }
{
    if from_start && Stamp::FIRST.is_same(stamp) {
        Some(zero)
    } else {
        None
    }
}

// How many versions were added.
fn count_in(added: Option<&VersionLog<u32>>) -> usize
    ensures value { result ≡ length (added_in (option_copied added.entry)) }
    ensures bound { result < 2 ^ 63 }
{
    match added {
        Some(log) => log.versions().len(),
        None => 0,
    }
}

// The newest of them.
fn newest_in(added: Option<&VersionLog<u32>>) -> Option<Entry>
    ensures { result ≡ last (added_in (option_copied added.entry)) }
{
    match added {
        Some(log) => entry_of(log.newest()),
        None => None,
    }
}

// The newest of them below a bound.
fn below_in(added: Option<&VersionLog<u32>>, bound: Stamp) -> Option<Entry>
    ensures { result ≡ below bound (added_in (option_copied added.entry)) }
{
    match added {
        Some(log) => entry_of(log.below(bound)),
        None => None,
    }
}

fn entry_of(found: Option<(Stamp, &u32)>) -> Option<Entry>
    ensures { result ≡ option_map (λ pair. version pair.0 pair.1.now) found.entry }
{
    match found {
        Some((stamp, slot)) => Some(Version {
            stamp,
            block: *slot,
        }),
        None => None,
    }
}

// The slot of the one with this stamp.
fn slot_in(added: Option<&VersionLog<u32>>, stamp: Stamp) -> Option<u32>
    ensures { result ≡ option_map block_of (find (has_stamp stamp) (added_in (option_copied added.entry))) }
{
    match added {
        Some(log) => log.at(stamp).copied(),
        None => None,
    }
}
