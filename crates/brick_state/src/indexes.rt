//! The index: what a brick keeps, in memory.

ghost use Rattle.std.specs.Prelude.{◌≡◌, ◌≤◌, length};
ghost use Rattle.fab_base.specs.Layouts.{most_groups};
ghost use Rattle.brick_state.specs.Folds.{slot_named};

use crate::groups::{Group, MOST_GROUPS};
use crate::records::Record;
use crate::stripe_tables::StripeTable;
use crate::stripes::{Entry, Place, Stripe, ZERO_SLOT};
use crate::{log_changes, rewrites, stripe_maps};
use fab_base::{Ballot, GroupId, Members, NoMem, Stamp, StripeNo, View, ViewNo};
use stamp_store::{Kept, LogChange, Logged};
use std::alloc::Global;
use version_log::Version;

/// What a brick keeps, with the slots of its blocks.
#[derive(Drop)]
pub struct Index {
    alloc: Global,
    records: u32,
    boot: u32,
    groups: Vec<Group>,
    stripes: StripeTable,
    ghost all_groups: { length groups.items ≡ most_groups },
    ghost few: { records ≤ 4294967295 },
}

impl Index {
    ghost use Rattle.std.specs.Prelude.{◌≡◌, ◌↔◌, ℕ, ◌-◌, ◌^◌, min, true, false, Ok, Some, None, ◌&&◌, nat_lt, nat_le, ◌<◌, if◌then◌else◌, IfNone, IfSome, IfOk, OnOk, OnErr, IsOk, IsTrue};
    ghost use Rattle.brick_state.specs.States.{empty, live, group_at, first_stripe, stripe_of, stamp_of, viewed, balloted, stripe_at, newest_entry, added};
    ghost use Rattle.brick_state.specs.Times.{top_time};
    ghost use Rattle.brick_state.specs.Folds.{applied, order_set, log_set, place, is_full, is_above, slot_named};
    ghost use Rattle.brick_state.specs.Maps.{HasRoom};
    ghost use Rattle.std.specs.List.{Contains};
    ghost use Rattle.brick_state.specs.Tallies.{HasSlotRoom};
    ghost use Rattle.brick_state.specs.Slots.{slots_of, IsFree};
    ghost use Rattle.brick_state.specs.Rewrites.{live_records};
    ghost use Rattle.brick_state.specs.Indexes.{state_of, limits_of, Answers, IsReady};

    /// The index of a brick that keeps nothing yet, with so many live records at most, and so many slots.
    pub fn new(alloc: Global, records: u32, slots: u32) -> Result<Index, NoMem>
        ensures nothing { IfOk result (λ index. state_of index ≡ empty) }
        ensures limits { IfOk result (λ index. limits_of index ≡ record { records = records; slots = slots }) }
    {
        let stripes = StripeTable::new(alloc, slots);
        let mut groups = Vec::new(alloc);
        for _ in 0..MOST_GROUPS {
            groups.push(Group {
                known: None,
                ballots: None,
            })?;
        }
        Ok(Index {
            alloc,
            records,
            boot: 0,
            groups,
            stripes,
        })
    }

    /// How many live records there are: order stamps other than the first, and versions added. At most
    /// 2^32 - 1 are told.
    pub fn live(&self) -> u32
        ensures { result ≡ min (live (state_of self.now)) (2 ^ 32 - 1) }
    {
        self.stripes.live()
    }

    /// The greatest time of the order stamps and of the versions added, 0 where there is none.
    pub fn top_time(&self) -> u64
        ensures { result ≡ top_time stamp_of (state_of self.now) }
    {
        self.stripes.top_time()
    }

    /// How often the store was opened.
    pub fn boot(&self) -> u32
        ensures { result ≡ (state_of self.now).boot }
    {
        self.boot
    }

    /// What is kept of a group.
    pub fn group(&self, group: u32) -> &Group
        requires { group < most_groups }
        ensures { result.now ≡ group_at (state_of self.now) group }
    {
        &self.groups[group as usize]
    }

    /// What is kept of a stripe. None where nothing happened there.
    pub fn stripe(&self, place: Place) -> Option<&Stripe>
        ensures none { IfNone result (stripe_at (state_of self.now) place ≡ first_stripe place) }
        ensures some { IfSome result (λ stripe. stripe_at (state_of self.now) place ≡ stripe_of stripe.now) }
    {
        stripe_maps::find(self.stripes.views(), place)
    }

    /// Whether a version names this slot.
    pub fn is_named(&self, slot: u32) -> bool
        requires { slot < (limits_of self.now).slots }
        ensures { IsTrue result ↔ Contains (slots_of (state_of self.now)) slot }
    {
        self.stripes.is_named(slot)
    }

    /// No version names a slot from here on, but that of the zero block.
    pub fn named_end(&self) -> u32
        ensures within { result ≤ (limits_of self.now).slots }
        ensures named { (slot : ℕ) → slot < (limits_of self.now).slots → Contains (slots_of (state_of self.now)) slot → slot < result }
    {
        self.stripes.named_end()
    }

    /// The least slot that no version names, where there are fewer live records than slots.
    pub fn free_slot(&self) -> Result<u32, NoMem>
        requires { live (state_of self.now) < (limits_of self.now).slots }
        ensures { IfOk result (λ slot. IsFree (limits_of self.now).slots (slots_of (state_of self.now)) slot) }
    {
        Ok(self.stripes.free_slot())
    }

    /// The records that bring back what is kept from nothing.
    pub fn records(&self) -> Result<Vec<Record>, NoMem>
        ensures { IfOk result (λ made. made.items ≡ live_records (state_of self.now)) }
    {
        let mut made = Vec::new(self.alloc);
        made.push(Record::Kept(Kept::Boot(self.boot)))?;
        rewrites::put_groups(&mut made, &self.groups)?;
        rewrites::put_stripes(&mut made, self.stripes.views())?;
        Ok(made)
    }

    /// Makes room for a change. A store does so before it touches its disk, since no memory may be refused after that.
    pub fn reserve(&mut self, item: &Record) -> Result<(), NoMem>
        ensures same { state_of self.new ≡ state_of self.old }
        ensures limits { limits_of self.new ≡ limits_of self.old }
        ensures ready { OnOk result (IsReady self.new item.now) }
    {
        match item {
            Record::Kept(
                Kept::Order {
                    group,
                    view,
                    stripe,
                    ..
                },
            ) => self
                .stripes
                .make_room(self.alloc, (group.0, view.0, stripe.0), ZERO_SLOT),
            Record::Logged(logged) => self.stripes.make_room(
                self.alloc,
                (logged.group.0, logged.view.0, logged.stripe.0),
                slot_named(logged.change),
            ),
            Record::Kept(Kept::Boot(_)) => Ok(()),
            Record::Kept(Kept::View { .. }) => Ok(()),
            Record::Kept(Kept::Ballots { .. }) => Ok(()),
        }
    }

    /// Makes a change. False where the record can't be: then nothing is changed. It takes no memory where
    /// [`Index::reserve`] made room for the record.
    #[tactic(auto, unfolding(crate::specs::Folds::applied))]
    pub fn apply(&mut self, change: &Record) -> Result<bool, NoMem>
        ensures answer { IfOk result (Answers (state_of self.new) (applied (limits_of self.old) change.now (state_of self.old))) }
        ensures refused { result ≡ Ok false → state_of self.new ≡ state_of self.old }
        ensures err { OnErr result (state_of self.new ≡ state_of self.old) }
        ensures limits { limits_of self.new ≡ limits_of self.old }
        ensures enough { IsReady self.old change.now → IsOk result }
    {
        match change {
            Record::Kept(Kept::Boot(count)) => {
                self.boot = *count;
                Ok(true)
            }
            Record::Kept(
                Kept::View {
                    group,
                    view,
                    synced,
                },
            ) => Ok(self.set_view(group.0, view, *synced)),
            Record::Kept(
                Kept::Ballots {
                    group,
                    promised,
                    accepted,
                    ..
                },
            ) => Ok(self.set_ballots(group.0, *promised, accepted)),
            Record::Kept(
                Kept::Order {
                    group,
                    view,
                    stripe,
                    stamp,
                },
            ) => self.set_order((group.0, view.0, stripe.0), *stamp),
            Record::Logged(logged) => self.change_log(logged),
        }
    }

    /// Counts an opening: what [`Index::apply`] makes of a record of it.
    #[tactic(auto, unfolding(crate::specs::Folds::applied))]
    pub fn apply_boot(&mut self, count: u32)
        ensures answer { Answers (state_of self.new) (applied (limits_of self.old) (Record.Kept (Kept.Boot count)) (state_of self.old)) true }
        ensures limits { limits_of self.new ≡ limits_of self.old }
    {
        self.boot = count;
    }

    /// Sets an order stamp: what [`Index::apply`] makes of a record of it.
    #[tactic(auto, unfolding(crate::specs::Folds::applied))]
    pub fn apply_order(
        &mut self,
        group: GroupId,
        view: ViewNo,
        stripe: StripeNo,
        stamp: Stamp,
    ) -> Result<bool, NoMem>
        ensures answer { IfOk result (Answers (state_of self.new) (applied (limits_of self.old) (Record.Kept (Kept.Order group view stripe stamp)) (state_of self.old))) }
        ensures refused { result ≡ Ok false → state_of self.new ≡ state_of self.old }
        ensures limits { limits_of self.new ≡ limits_of self.old }
    {
        self.set_order((group.0, view.0, stripe.0), stamp)
    }

    /// Changes a log: what [`Index::apply`] makes of a record of it.
    #[tactic(auto, unfolding(crate::specs::Folds::applied))]
    pub fn apply_logged(&mut self, logged: &Logged) -> Result<bool, NoMem>
        ensures answer { IfOk result (Answers (state_of self.new) (applied (limits_of self.old) (Record.Logged logged.now) (state_of self.old))) }
        ensures refused { result ≡ Ok false → state_of self.new ≡ state_of self.old }
        ensures limits { limits_of self.new ≡ limits_of self.old }
    {
        self.change_log(logged)
    }

    /// Whether there are as many live records as there may be.
    pub fn is_full(&self) -> bool
        ensures { result ≡ is_full (limits_of self.now) (state_of self.now) }
    {
        self.live() >= self.records
    }

    fn set_view(&mut self, group: u32, view: &View, synced: bool) -> bool
        ensures answer { Answers (state_of self.new) (if nat_lt group most_groups && nat_le 2 view.now.number.0 then Some
            (viewed group view.now synced (state_of self.old)) else None) result }
        ensures refused { result ≡ false → state_of self.new ≡ state_of self.old }
        ensures limits { limits_of self.new ≡ limits_of self.old }
    {
        if group >= MOST_GROUPS || view.number.0 < 2 {
            return false;
        }
        let first = if synced {
            view.number.0
        } else {
            view.number.0 - 1
        };
        let entry = &mut self.groups[group as usize];
        entry.learn(view, synced);
        self.stripes.drop_views(group, first);
        true
    }

    fn set_ballots(
        &mut self,
        group: u32,
        promised: Ballot,
        accepted: &Option<(Ballot, Members)>,
    ) -> bool
        ensures answer { Answers (state_of self.new) (if nat_lt group most_groups then Some
            (balloted group promised accepted.now (state_of self.old)) else None) result }
        ensures refused { result ≡ false → state_of self.new ≡ state_of self.old }
        ensures limits { limits_of self.new ≡ limits_of self.old }
    {
        if group >= MOST_GROUPS {
            return false;
        }
        let entry = &mut self.groups[group as usize];
        entry.promise(promised, accepted);
        true
    }

    // Most orders are of a stripe that is listed: these take one look-up, and no memory.
    fn set_order(&mut self, place: Place, stamp: Stamp) -> Result<bool, NoMem>
        ensures answer { IfOk result (Answers (state_of self.new) (order_set (limits_of self.old) place stamp (state_of self.old))) }
        ensures refused { result ≡ Ok false → state_of self.new ≡ state_of self.old }
        ensures err { OnErr result (state_of self.new ≡ state_of self.old) }
        ensures limits { limits_of self.new ≡ limits_of self.old }
        ensures enough { HasRoom self.old.stripes.views place → IsOk result }
    {
        if self.replace_order(place, stamp) {
            return Ok(true);
        }
        self.put_order(place, stamp)
    }

    // Sets the order stamp of a stripe that is listed, while there are fewer live records than there may be. False where that isn't so: then nothing is changed.
    fn replace_order(&mut self, place: Place, stamp: Stamp) -> bool
        ensures set { IsTrue result → Answers (state_of self.new) (order_set (limits_of self.old) place stamp (state_of self.old)) true }
        ensures left { result ≡ false → state_of self.new ≡ state_of self.old }
        ensures limits { limits_of self.new ≡ limits_of self.old }
        ensures room { HasRoom self.old.stripes.views place → result ≡ false → HasRoom self.new.stripes.views place }
    {
        if place.0 >= MOST_GROUPS || self.is_full() {
            return false;
        }
        self.stripes.replace_order(place, stamp)
    }

    // Sets the order stamp of any stripe.
    fn put_order(&mut self, place: Place, stamp: Stamp) -> Result<bool, NoMem>
        ensures answer { IfOk result (Answers (state_of self.new) (order_set (limits_of self.old) place stamp (state_of self.old))) }
        ensures refused { result ≡ Ok false → state_of self.new ≡ state_of self.old }
        ensures err { OnErr result (state_of self.new ≡ state_of self.old) }
        ensures limits { limits_of self.new ≡ limits_of self.old }
        ensures enough { HasRoom self.old.stripes.views place → IsOk result }
    {
        if place.0 >= MOST_GROUPS {
            return Ok(false);
        }
        self.stripes.make_room(self.alloc, place, ZERO_SLOT)?;
        let full = self.is_full();
        Ok(self.stripes.set_order(place, stamp, full))
    }

    /// The order stamp of a stripe.
    pub fn order(&self, place: Place) -> Stamp
        ensures { result ≡ (stripe_at (state_of self.now) place).order }
    {
        stripe_maps::order(self.stripes.views(), place)
    }

    // Most changes of a log add a version with a block of its own to a stripe that is listed: these take one look-up, and no memory.
    fn change_log(&mut self, logged: &Logged) -> Result<bool, NoMem>
        ensures answer { IfOk result (Answers (state_of self.new) (log_set (limits_of self.old) logged.now (state_of self.old))) }
        ensures refused { result ≡ Ok false → state_of self.new ≡ state_of self.old }
        ensures err { OnErr result (state_of self.new ≡ state_of self.old) }
        ensures limits { limits_of self.new ≡ limits_of self.old }
        ensures enough { HasRoom self.old.stripes.views (place logged.now.group logged.now.view logged.now.stripe)
            → HasSlotRoom self.old.stripes.slots self.old.stripes.counts (slot_named logged.now.change) → IsOk result }
    {
        if self.add_listed(logged) {
            return Ok(true);
        }
        self.change_any_log(logged)
    }

    // Adds a version with a block of its own to a stripe that is listed, while there are fewer live records than there may be. False where that isn't
    // so: then nothing is changed.
    fn add_listed(&mut self, logged: &Logged) -> bool
        ensures added { IsTrue result → Answers (state_of self.new) (log_set (limits_of self.old) logged.now (state_of self.old)) true }
        ensures left { result ≡ false → state_of self.new ≡ state_of self.old }
        ensures limits { limits_of self.new ≡ limits_of self.old }
        ensures room { HasRoom self.old.stripes.views (place logged.now.group logged.now.view logged.now.stripe) → result ≡ false
            → HasRoom self.new.stripes.views (place logged.now.group logged.now.view logged.now.stripe) }
        ensures counts { result ≡ false → self.new.stripes.counts ≡ self.old.stripes.counts }
    {
        match logged.change {
            LogChange::Slot { bottom, slot } => {
                if bottom {
                    return false;
                }
                let place = (logged.group.0, logged.view.0, logged.stripe.0);
                let entry = Version {
                    stamp: logged.stamp,
                    block: slot,
                };
                self.add_entry(place, entry)
            }
            LogChange::Same => false,
            LogChange::Collect => false,
        }
    }

    // The same of a version with the slot of its block.
    fn add_entry(&mut self, place: Place, entry: Entry) -> bool
        ensures group { IsTrue result → place.0 < most_groups }
        ensures free { IsTrue result → is_full (limits_of self.old) (state_of self.old) ≡ false }
        ensures slot { IsTrue result → entry.block < (limits_of self.old).slots }
        ensures above { IsTrue result → is_above (newest_entry (stripe_at (state_of self.old) place)) entry.stamp ≡ true }
        ensures added { IsTrue result → state_of self.new ≡ added place entry (state_of self.old) }
        ensures left { result ≡ false → state_of self.new ≡ state_of self.old }
        ensures limits { limits_of self.new ≡ limits_of self.old }
        ensures room { HasRoom self.old.stripes.views place → result ≡ false → HasRoom self.new.stripes.views place }
        ensures counts { result ≡ false → self.new.stripes.counts ≡ self.old.stripes.counts }
    {
        if place.0 >= MOST_GROUPS || self.is_full() {
            return false;
        }
        self.stripes.add_listed(place, entry)
    }

    // Any change of a log.
    fn change_any_log(&mut self, logged: &Logged) -> Result<bool, NoMem>
        ensures answer { IfOk result (Answers (state_of self.new) (log_set (limits_of self.old) logged.now (state_of self.old))) }
        ensures refused { result ≡ Ok false → state_of self.new ≡ state_of self.old }
        ensures err { OnErr result (state_of self.new ≡ state_of self.old) }
        ensures limits { limits_of self.new ≡ limits_of self.old }
        ensures enough { HasRoom self.old.stripes.views (place logged.now.group logged.now.view logged.now.stripe)
            → HasSlotRoom self.old.stripes.slots self.old.stripes.counts (slot_named logged.now.change) → IsOk result }
    {
        if logged.group.0 >= MOST_GROUPS {
            return Ok(false);
        }
        let place = (logged.group.0, logged.view.0, logged.stripe.0);
        self.stripes
            .make_room(self.alloc, place, slot_named(logged.change))?;
        let full = self.is_full();
        Ok(log_changes::change_log(&mut self.stripes, place, logged.stamp, logged.change, full))
    }
}

// The slot that a change names.
fn slot_named(change: LogChange) -> u32
    ensures { result ≡ slot_named change }
{
    match change {
        LogChange::Same => ZERO_SLOT,
        LogChange::Collect => ZERO_SLOT,
        LogChange::Slot { slot, .. } => slot,
    }
}
