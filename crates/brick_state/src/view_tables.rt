//! The stripes of a group in a view, with what is counted of them.

ghost use Rattle.std.specs.Prelude.{◌≡◌, false, IsTrue, ◌<◌, ◌≤◌, [], IsOk, OnOk, IfNone, IfSome, IsSome};
ghost use Rattle.std.specs.Ordering.{nat_cmp};
ghost use Rattle.std.specs.BTreeMap.{get, IsOrdered};
ghost use Rattle.std.proofs.Props.{props};
ghost use Rattle.brick_state.specs.Changes.{changed};
ghost use Rattle.brick_state.specs.ViewStripes.{live_of, time_of, HasRoomAt, MayChange, IsChanged, IsExtended, IsReordered};

use crate::stripes::{Entry, Place, Stripe, StripeChange, order_weight};
use crate::view_stripes;
use fab_base::{NoMem, Stamp};
use std::alloc::Global;
use std::collections::BTreeMap;

/// The stripes of a group in a view by their numbers, how many live records they have, and the greatest time of their stamps.
#[derive(Drop)]
pub struct ViewTable {
    stripes: BTreeMap<u32, Stripe>,
    live: u32,
    top: u64,
    ghost fits: { live ≤ 4294967295 },
    ghost counted: { live ≡ live_of stripes.entries },
    ghost timed: { top ≡ time_of stripes.entries },
    ghost ordered: { IsOrdered nat_cmp stripes } by { Prim.hlevel props },
}

impl ViewTable {
    ghost use Rattle.brick_state.specs.Maps.{listed, placed, key_of};

    /// No stripes. It takes no memory.
    pub fn new(alloc: Global) -> ViewTable
        ensures { result.stripes.entries ≡ [] }
    {
        ViewTable {
            stripes: BTreeMap::new(alloc),
            live: 0,
            top: 0,
        }
    }

    /// The stripes by their numbers.
    pub fn stripes(&self) -> &BTreeMap<u32, Stripe>
        ensures { result.now ≡ self.now.stripes }
    {
        &self.stripes
    }

    /// How many live records there are.
    pub fn live(&self) -> u32
        ensures { result ≡ live_of self.now.stripes.entries }
    {
        self.live
    }

    /// The greatest time of the order stamps and of the versions added, 0 where there is none.
    pub fn top_time(&self) -> u64
        ensures { result ≡ time_of self.now.stripes.entries }
    {
        self.top
    }

    /// Makes room for a change of a stripe. A stripe that is new is one where nothing happened.
    pub fn make_room(&mut self, alloc: Global, place: Place) -> Result<(), NoMem>
        ensures same { listed (placed (key_of place) self.new.stripes.entries) ≡ listed (placed (key_of place) self.old.stripes.entries) }
        ensures room { OnOk result (HasRoomAt self.new.stripes place.2) }
        ensures enough { HasRoomAt self.old.stripes place.2 → IsOk result }
    {
        view_stripes::make_room(alloc, &mut self.stripes, place)
    }

    /// Changes a stripe. All others are walked only where the greatest time goes for an earlier one.
    pub fn change(&mut self, number: u32, change: StripeChange)
        requires { MayChange self.old.stripes number change }
        ensures { IsChanged number (changed change) self.old.stripes.entries self.new.stripes.entries }
    {
        let tally = view_stripes::change(&mut self.stripes, number, change);
        self.live = self.live - tally.fewer + tally.more;
        self.top = view_stripes::top_after(&self.stripes, self.top, tally.lost, tally.come);
    }

    /// Adds a version to a stripe that is listed, where it is above the newest one and there is room for it. False where that isn't so: then nothing is changed.
    pub fn add_listed(&mut self, number: u32, entry: Entry) -> bool
        requires few { live_of self.old.stripes.entries < 4294967295 }
        ensures left { result ≡ false → self.new.stripes.entries ≡ self.old.stripes.entries }
        ensures added { IsTrue result → IsExtended number entry self.old.stripes.entries self.new.stripes.entries }
    {
        if !view_stripes::add_listed(&mut self.stripes, number, entry) {
            return false;
        }
        self.live += 1;
        self.top = self.top.max(entry.stamp.time);
        true
    }

    /// Sets the order stamp of a stripe that is listed, and answers the one that it had. None where the stripe isn't listed: then nothing is changed.
    pub fn replace_order(&mut self, number: u32, stamp: Stamp) -> Option<Stamp>
        requires few { live_of self.old.stripes.entries < 4294967295 }
        ensures none { IfNone result (self.new.stripes ≡ self.old.stripes) }
        ensures enough { IsSome (get nat_cmp self.old.stripes number) → IsSome result }
        ensures replaced { IfSome result (λ replaced. IsReordered number stamp replaced self.old.stripes.entries self.new.stripes.entries) }
    {
        match view_stripes::replace_order(&mut self.stripes, number, stamp) {
            Some(replaced) => {
                self.live = self.live - order_weight(replaced) + order_weight(stamp);
                self.top = view_stripes::top_after(
                    &self.stripes,
                    self.top,
                    replaced.time,
                    stamp.time,
                );
                Some(replaced)
            }
            None => None,
        }
    }
}
