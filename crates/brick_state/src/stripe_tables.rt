//! The stripes of a brick with what is counted of them.

ghost use Rattle.std.specs.Prelude.{◌≡◌, ◌↔◌, ◌≢◌, ◌+◌, ◌-◌, ◌<◌, ◌≤◌, ℕ, ◌==◌, ◌^◌, ◌&&◌, false, if◌then◌else◌, Some, None, not, filter, length, IfOk, OnOk, IsOk, IfNone, IfSome, IsSome, IsTrue, nat_lt, replicate, slice_index_or, sum_by, true, []};
ghost use Rattle.std.specs.List.{Contains};
ghost use Rattle.std.specs.Map.{remove_entry};
ghost use Rattle.std.specs.BTreeMap.{is_at, get, values};
ghost use Rattle.fab_base.specs.Stamps.{stamp_below, stamp_same, first_stamp};
ghost use Rattle.brick_state.specs.States.{first_stripe, stripe_in, has_version, stripe_of, stamp_of, put, live_in, weight, with_order, with_added, with_bottom, with_collected, is_of_view, newest_entry};
ghost use Rattle.brick_state.specs.Maps.{IsExtendedAt, listed_in, HasRoom, view_cmp, AnswersAt};
ghost use Rattle.brick_state.specs.Folds.{adds_order, is_above};
ghost use Rattle.brick_state.specs.Slots.{slots_in, IsFree};
ghost use Rattle.brick_state.specs.Times.{time_in};
ghost use Rattle.brick_state.specs.Tallies.{names_of, AreNames, NoneBeyond, HasSlotRoom, order_weight};

use crate::slot_tables::SlotTable;
use crate::stripe_maps;
use crate::stripe_maps::{ViewKey, Views};
use crate::stripes::{Entry, Place, Stripe, StripeChange, order_weight};
use fab_base::{NoMem, Stamp};
use std::alloc::Global;
use std::collections::BTreeMap;

/// The stripes of each view of each group, how many live records they have, and how often versions name each slot. There are
/// counts for the slots that were named: so a table of many slots and few versions takes little memory.
#[derive(Drop)]
pub struct StripeTable {
    views: Views,
    live: u32,
    slots: u32,
    counts: SlotTable,
    ghost fits: { live ≤ 4294967295 },
    ghost few: { slots ≤ 4294967295 },
    ghost counted: { live ≡ live_in (listed_in views) },
    ghost named: { AreNames (listed_in views) counts },
    ghost beyond: { NoneBeyond slots (listed_in views) counts },
}

impl StripeTable {
    /// No stripes, and so many slots. It takes no memory.
    pub fn new(alloc: Global, slots: u32) -> StripeTable
        ensures nothing { listed_in result.views ≡ [] }
        ensures slots { result.slots ≡ slots }
    {
        StripeTable {
            views: BTreeMap::new(alloc),
            live: 0,
            slots,
            counts: SlotTable::new(alloc),
        }
    }

    /// The stripes of each view of each group.
    pub fn views(&self) -> &Views
        ensures { result.now ≡ self.now.views }
    {
        &self.views
    }

    /// How many live records there are.
    pub fn live(&self) -> u32
        ensures { result ≡ live_in (listed_in self.now.views) }
    {
        self.live
    }

    /// The greatest time of the order stamps and of the versions added, 0 where there is none. It looks at each view once, and
    /// at no stripe.
    pub fn top_time(&self) -> u64
        ensures { result ≡ time_in stamp_of (listed_in self.now.views) }
    {
        stripe_maps::top_time(&self.views)
    }

    /// Whether there is such a slot.
    pub fn has_slot(&self, slot: u32) -> bool
        ensures { result ≡ nat_lt slot self.now.slots }
    {
        slot < self.slots
    }

    /// The newest version of a stripe.
    pub fn newest(&self, place: Place) -> Option<Entry>
        ensures newest { result ≡ newest_entry (stripe_in (listed_in self.now.views) place) }
        ensures counted { IfSome result (λ entry. HasSlotRoom self.now.slots self.now.counts entry.block) }
    {
        match stripe_maps::find(&self.views, place) {
            Some(stripe) => stripe.newest(),
            None => Stripe::first_entry(place),
        }
    }

    /// The least slot that no version names, where there are fewer live records than slots.
    pub fn free_slot(&self) -> u32
        requires { live_in (listed_in self.now.views) < self.now.slots }
        ensures { IsFree self.now.slots (slots_in (listed_in self.now.views)) result }
    {
        self.counts.first_free()
    }

    /// Whether a version names this slot.
    pub fn is_named(&self, slot: u32) -> bool
        requires { slot < self.now.slots }
        ensures { IsTrue result ↔ Contains (slots_in (listed_in self.now.views)) slot }
    {
        self.counts.is_taken(slot)
    }

    /// No version names a slot from here on.
    pub fn named_end(&self) -> u32
        ensures within { result ≤ self.now.slots }
        ensures named { (slot : ℕ) → slot < self.now.slots → Contains (slots_in (listed_in self.now.views)) slot → slot < result }
    {
        self.slots.min(self.counts.len() as u32)
    }

    /// Makes room for a change of a stripe that names this slot.
    pub fn make_room(&mut self, alloc: Global, place: Place, slot: u32) -> Result<(), NoMem>
        ensures same { listed_in self.new.views ≡ listed_in self.old.views }
        ensures slots { self.new.slots ≡ self.old.slots }
        ensures room { OnOk result (HasRoom self.new.views place) }
        ensures slot_room { OnOk result (HasSlotRoom self.new.slots self.new.counts slot) }
        ensures enough { HasRoom self.old.views place → HasSlotRoom self.old.slots self.old.counts slot → IsOk result }
    {
        self.make_slot_room(alloc, slot)?;
        stripe_maps::make_room(alloc, &mut self.views, place)?;
        Ok(())
    }

    // Has a count for this slot: the table at least doubles, so that all of its growths take the time of the last.
    fn make_slot_room(&mut self, alloc: Global, slot: u32) -> Result<(), NoMem>
        ensures same { self.new.views ≡ self.old.views }
        ensures slots { self.new.slots ≡ self.old.slots }
        ensures room { OnOk result (HasSlotRoom self.new.slots self.new.counts slot) }
        ensures enough { HasSlotRoom self.old.slots self.old.counts slot → IsOk result }
    {
        if slot >= self.slots || self.counts.has(slot) {
            return Ok(());
        }
        let doubled = self.counts.len().saturating_mul(2);
        let slots = doubled.max(slot as usize + 1).min(self.slots as usize);
        self.counts.grow(alloc, slots)?;
        Ok(())
    }

    /// Sets an order stamp. False where that is one live record more, and `full` tells that there are as many as there may be:
    /// then nothing is changed. The stripe is looked up once for both stamps.
    pub fn set_order(&mut self, place: Place, stamp: Stamp, full: bool) -> bool
        requires room { HasRoom self.old.views place }
        requires fits { full ≡ false → live_in (listed_in self.old.views) < 4294967295 }
        ensures answer { AnswersAt place (listed_in self.old.views) (listed_in self.new.views)
            (if adds_order stamp (stripe_in (listed_in self.old.views) place) && full then None else Some
            (with_order stamp (stripe_in (listed_in self.old.views) place))) result }
        ensures slots { self.new.slots ≡ self.old.slots }
    {
        let replaced = stripe_maps::order(&self.views, place);
        let before = order_weight(replaced);
        let adds = adds_record(stamp, replaced);
        if adds && full {
            return false;
        }
        stripe_maps::change(&mut self.views, place, StripeChange::Order(stamp));
        self.live = self.live - before + order_weight(stamp);
        true
    }

    /// Sets the order stamp of a stripe that is listed, by one look-up. False where it isn't listed: then nothing is changed.
    pub fn replace_order(&mut self, place: Place, stamp: Stamp) -> bool
        requires few { live_in (listed_in self.old.views) < 4294967295 }
        ensures set { IsTrue result → listed_in self.new.views ≡ put place (with_order stamp (stripe_in (listed_in self.old.views) place))
            (listed_in self.old.views) }
        ensures left { result ≡ false → listed_in self.new.views ≡ listed_in self.old.views }
        ensures enough { HasRoom self.old.views place → IsTrue result }
        ensures slots { self.new.slots ≡ self.old.slots }
    {
        match stripe_maps::replace_order(&mut self.views, place, stamp) {
            Some(replaced) => {
                self.live = self.live - order_weight(replaced) + order_weight(stamp);
                true
            }
            None => false,
        }
    }

    /// Adds a version to a stripe that is listed, where it is above the newest one and there is room for it, by one look-up. False where that isn't so: then nothing is changed.
    pub fn add_listed(&mut self, place: Place, entry: Entry) -> bool
        requires few { live_in (listed_in self.old.views) < 4294967295 }
        ensures added { IsTrue result → IsExtendedAt place entry (listed_in self.old.views) (listed_in self.new.views) }
        ensures slot { IsTrue result → entry.block < self.old.slots }
        ensures left { result ≡ false → listed_in self.new.views ≡ listed_in self.old.views }
        ensures room { HasRoom self.old.views place → result ≡ false → HasRoom self.new.views place }
        ensures counts { result ≡ false → self.new.counts ≡ self.old.counts }
        ensures slots { self.new.slots ≡ self.old.slots }
    {
        if !self.has_slot(entry.block) || !self.counts.has(entry.block) {
            return false;
        }
        if !stripe_maps::add_listed(&mut self.views, place, entry) {
            return false;
        }
        self.live += 1;
        self.counts.take(entry.block);
        true
    }

    /// Adds a version.
    pub fn add(&mut self, place: Place, entry: Entry)
        requires room { HasRoom self.old.views place }
        requires above { is_above (newest_entry (stripe_in (listed_in self.old.views) place)) entry.stamp ≡ true }
        requires slot { HasSlotRoom self.old.slots self.old.counts entry.block }
        requires fits { live_in (listed_in self.old.views) < 4294967295 }
        ensures added { listed_in self.new.views ≡ put place (with_added entry (stripe_in (listed_in self.old.views) place))
            (listed_in self.old.views) }
        ensures slots { self.new.slots ≡ self.old.slots }
    {
        stripe_maps::change(&mut self.views, place, StripeChange::Add(entry));
        self.live += 1;
        self.counts.take(entry.block);
    }

    /// Adds a version in the place of all that are there.
    pub fn set_bottom(&mut self, place: Place, entry: Entry)
        requires room { HasRoom self.old.views place }
        requires slot { HasSlotRoom self.old.slots self.old.counts entry.block }
        requires fits { length (stripe_in (listed_in self.old.views) place).added ≡ 0 → live_in (listed_in self.old.views) < 4294967295 }
        ensures added { listed_in self.new.views ≡ put place (with_bottom entry (stripe_in (listed_in self.old.views) place))
            (listed_in self.old.views) }
        ensures slots { self.new.slots ≡ self.old.slots }
    {
        let versions = stripe_maps::added(&self.views, place);
        let dropped = release_all(&mut self.counts, versions);
        stripe_maps::change(&mut self.views, place, StripeChange::Restart(entry));
        self.live = self.live - dropped as u32 + 1;
        self.counts.take(entry.block);
    }

    /// Drops the versions below the stamp of one.
    pub fn collect(&mut self, place: Place, stamp: Stamp)
        requires room { HasRoom self.old.views place }
        requires held { has_version stamp (stripe_in (listed_in self.old.views) place) ≡ true }
        ensures kept { listed_in self.new.views ≡ put place (with_collected stamp_of stamp (stripe_in (listed_in self.old.views) place))
            (listed_in self.old.views) }
        ensures slots { self.new.slots ≡ self.old.slots }
    {
        let versions = stripe_maps::added(&self.views, place);
        let dropped = release_below(&mut self.counts, versions, stamp);
        stripe_maps::change(&mut self.views, place, StripeChange::Collect(stamp));
        self.live -= dropped as u32;
    }

    /// Drops the stripes of a group in the views below one. It takes no memory, and looks at no other stripe.
    pub fn drop_views(&mut self, group: u32, first: u32)
        ensures kept { listed_in self.new.views ≡ filter (λ e. not (is_of_view group first e.0)) (listed_in self.old.views) }
        ensures slots { self.new.slots ≡ self.old.slots }
    {
        while let Some(key) = stripe_maps::first_below(&self.views, group, first) {
            self.drop_view(key);
        }
    }

    fn drop_view(&mut self, key: ViewKey)
        requires { IsSome (get view_cmp self.old.views key) }
        ensures fewer { length self.new.views.entries < length self.old.views.entries }
        ensures removed { self.new.views.entries ≡ remove_entry (is_at (view_cmp key)) self.old.views.entries }
        ensures slots { self.new.slots ≡ self.old.slots }
    {
        if let Some(table) = self.views.remove(&key) {
            release_stripes(&mut self.counts, table.stripes());
            self.live -= table.live();
        }
    }
}

// Whether an order stamp in the place of another is one live record more.
fn adds_record(stamp: Stamp, order: Stamp) -> bool
    ensures { result ≡ (stamp_same order first_stamp && not (stamp_same stamp first_stamp)) }
{
    order.is_same(Stamp::FIRST) && !stamp.is_same(Stamp::FIRST)
}

// Counts the versions less that these slots are named by; their number.
fn release_all(counts: &mut SlotTable, entries: &[Entry]) -> usize
    ensures number { result ≡ length entries.now }
    ensures length { length counts.new ≡ length counts.old }
    ensures counts { (slot : ℕ) → slot < length counts.old → slice_index_or counts.new slot 0 ≡ slice_index_or counts.old slot 0 - names_of slot entries.now }
{
    for entry in entries {
        counts.release(entry.block);
    }
    entries.len()
}

// The same for those below a stamp.
fn release_below(counts: &mut SlotTable, entries: &[Entry], stamp: Stamp) -> usize
    ensures number { result ≡ length (filter (λ e. stamp_below (stamp_of e) stamp) entries.now) }
    ensures length { length counts.new ≡ length counts.old }
    ensures counts { (slot : ℕ) → slot < length counts.old → slice_index_or counts.new slot 0 ≡ slice_index_or counts.old slot 0
        - names_of slot (filter (λ e. stamp_below (stamp_of e) stamp) entries.now) }
{
    let mut dropped = 0usize;
    for entry in entries {
        if entry.stamp.is_below(stamp) {
            counts.release(entry.block);
            dropped += 1;
        }
    }
    dropped
}

// The same for all versions of a view.
fn release_stripes(counts: &mut SlotTable, stripes: &BTreeMap<u32, Stripe>)
    ensures length { length counts.new ≡ length counts.old }
    ensures counts { (slot : ℕ) → slot < length counts.old → slice_index_or counts.new slot 0 ≡ slice_index_or counts.old slot 0
        - sum_by (λ s. names_of slot s.added.versions.items) (values stripes.now) }
{
    for stripe in stripes.values() {
        let _ = release_all(counts, stripe.added.versions());
    }
}
