//! What is kept of one stripe.

ghost use Rattle.std.specs.Prelude.{◌≡◌, true, false, IsTrue, ◌-◌, ◌^◌, ◌<◌, min, filter, vec_len, vec_capacity};
ghost use Rattle.std.specs.List.{list_any};
ghost use Rattle.fab_base.specs.Stamps.{stamp_same, stamp_below};
ghost use Rattle.brick_state.specs.States.{first_stripe, weight, stripe_of, stamp_of, newest_entry, has_version, with_added};
ghost use Rattle.brick_state.specs.Folds.{is_above};
ghost use Rattle.brick_state.specs.Times.{greatest, stripe_time};
ghost use Rattle.brick_state.specs.Changes.{changed, IsAllowed, time_lost, time_come};
ghost use Rattle.brick_state.specs.Tallies.{order_weight};

use fab_base::{NoMem, Stamp};
use std::alloc::Global;
use version_log::{Version, VersionLog};

/// A stripe of a group in a view: the group, the view and the stripe's number.
pub type Place = (u32, u32, u32);

/// The slot of the zero block, which lies on no disk.
pub const ZERO_SLOT: u32 = 4294967295;

/// A version: its stamp, and the slot that its block lies in.
pub type Entry = Version<u32>;

/// The version that a stripe of view 1 begins with.
pub const FIRST_ENTRY: Entry = Version {
    stamp: Stamp::FIRST,
    block: ZERO_SLOT,
};

/// What may happen to a stripe.
#[derive(Clone, Copy, Drop)]
pub enum StripeChange {
    /// An order stamp.
    Order(Stamp),
    /// A version above the newest.
    Add(Entry),
    /// A version in the place of all that are there.
    Restart(Entry),
    /// The versions below that of a stamp are dropped.
    Collect(Stamp),
}

impl StripeChange {
    /// The time that it brings. That of a version which stays is in the place of those that go.
    pub fn time_come(self) -> u64
        ensures { result ≡ time_come self }
    {
        match self {
            StripeChange::Order(stamp) => stamp.time,
            StripeChange::Add(entry) => entry.stamp.time,
            StripeChange::Restart(entry) => entry.stamp.time,
            StripeChange::Collect(stamp) => stamp.time,
        }
    }
}

/// The order stamp and the log of a stripe in a view.
#[derive(Drop)]
pub struct Stripe {
    /// The order stamp: the greatest stamp promised.
    pub order: Stamp,
    /// Whether the version that a stripe of view 1 begins with, the zero block of the first stamp, is still in the log. It
    /// takes no room: this flag is all that is kept of it.
    pub from_start: bool,
    /// The versions that were added and not dropped since.
    pub added: VersionLog<u32>,
}

impl Stripe {
    /// A stripe that nothing happened to.
    pub fn first(alloc: Global, place: Place) -> Stripe
        ensures { stripe_of result ≡ first_stripe place }
    {
        Stripe {
            order: Stamp::FIRST,
            from_start: place.1 == 1,
            added: VersionLog::new(alloc),
        }
    }

    /// How many live records it has: the order stamp where it is not the first, and the versions added.
    pub fn weight(&self) -> usize
        ensures { result ≡ min (weight (stripe_of self.now)) (2 ^ 64 - 1) }
    {
        let order = if self.order.is_same(Stamp::FIRST) {
            0
        } else {
            1usize
        };
        order.saturating_add(self.added.len())
    }

    /// The greatest time of its order stamp and of the versions added.
    pub fn top_time(&self) -> u64
        ensures { result ≡ stripe_time stamp_of (stripe_of self.now) }
    {
        self.order.time.max(newest_time(self.added.versions()))
    }

    /// The greatest time that a change takes away.
    pub fn time_lost(&self, change: StripeChange) -> u64
        ensures { result ≡ time_lost change (stripe_of self.now) }
    {
        match change {
            StripeChange::Order(_) => self.order.time,
            StripeChange::Add(_) => 0,
            StripeChange::Restart(_) => newest_time(self.added.versions()),
            StripeChange::Collect(stamp) => time_below(self.added.versions(), stamp),
        }
    }

    /// Changes it, where there is room for one version more.
    pub fn change(&mut self, change: StripeChange)
        requires room { vec_len self.old.added.versions < vec_capacity self.old.added.versions }
        requires allowed { IsAllowed change (stripe_of self.old) }
        ensures { stripe_of self.new ≡ changed change (stripe_of self.old) }
    {
        match change {
            StripeChange::Order(stamp) => self.order = stamp,
            StripeChange::Add(entry) => self.added.put(entry.stamp, entry.block),
            StripeChange::Restart(entry) => {
                self.from_start = false;
                self.added.restart(entry.stamp, entry.block);
            }
            StripeChange::Collect(stamp) => {
                self.from_start = self.from_start && !Stamp::FIRST.is_below(stamp);
                self.added.drop_below(stamp);
            }
        }
    }

    /// The version that a stripe of this place begins with, if there is one.
    pub fn first_entry(place: Place) -> Option<Entry>
        ensures { result ≡ newest_entry (first_stripe place) }
    {
        if place.1 == 1 {
            Some(FIRST_ENTRY)
        } else {
            None
        }
    }

    /// The version with the greatest stamp.
    pub fn newest(&self) -> Option<Entry>
        ensures { result ≡ newest_entry (stripe_of self.now) }
    {
        match self.added.newest() {
            Some((stamp, slot)) => Some(Version {
                stamp,
                block: *slot,
            }),
            None => {
                if self.from_start {
                    Some(FIRST_ENTRY)
                } else {
                    None
                }
            }
        }
    }

    /// Adds a version where it is above the newest one and there is room for it. False where that isn't so: then nothing is changed.
    pub fn add(&mut self, entry: Entry) -> bool
        ensures left { result ≡ false → self.new ≡ self.old }
        ensures above { IsTrue result → is_above (newest_entry (stripe_of self.old)) entry.stamp ≡ true }
        ensures added { IsTrue result → stripe_of self.new ≡ with_added entry (stripe_of self.old) }
    {
        if !self.added.has_room() || !self.is_below(entry.stamp) {
            return false;
        }
        self.added.put(entry.stamp, entry.block);
        true
    }

    // Whether all versions are below a stamp.
    fn is_below(&self, stamp: Stamp) -> bool
        ensures { result ≡ is_above (newest_entry (stripe_of self.now)) stamp }
    {
        match self.newest() {
            Some(newest) => newest.stamp.is_below(stamp),
            None => true,
        }
    }

    /// Whether there is a version with this stamp.
    pub fn has(&self, stamp: Stamp) -> bool
        ensures { result ≡ has_version stamp (stripe_of self.now) }
    {
        (self.from_start && Stamp::FIRST.is_same(stamp)) || self.added.has(stamp)
    }
}

/// The greatest time of versions, 0 where there is none.
pub fn newest_time(entries: &[Entry]) -> u64
    ensures { result ≡ greatest (λ e. (stamp_of e).time) entries.now }
{
    let mut top = 0u64;
    for entry in entries {
        top = top.max(entry.stamp.time);
    }
    top
}

/// The same of those below a stamp.
#[tactic(auto, unfolding(crate::specs::Times::greatest))]
pub fn time_below(entries: &[Entry], stamp: Stamp) -> u64
    ensures { result ≡ greatest (λ e. (stamp_of e).time) (filter (λ e. stamp_below (stamp_of e) stamp) entries.now) }
{
    let mut top = 0u64;
    for entry in entries {
        if entry.stamp.is_below(stamp) {
            top = top.max(entry.stamp.time);
        }
    }
    top
}

/// The live records that an order stamp is.
pub fn order_weight(stamp: Stamp) -> u32
    ensures { result ≡ order_weight stamp }
{
    if stamp.is_same(Stamp::FIRST) { 0 } else { 1 }
}
