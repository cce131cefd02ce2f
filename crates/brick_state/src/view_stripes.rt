//! The stripes of a group in a view, by their numbers.

ghost use Rattle.std.specs.Prelude.{◌≡◌, false, IsTrue, ◌+◌, ◌≤◌, IsOk, OnOk, IfNone, IfSome, IsSome};
ghost use Rattle.std.specs.Ordering.{nat_cmp};
ghost use Rattle.std.specs.BTreeMap.{get, values, IsOrdered};
ghost use Rattle.brick_state.specs.States.{stripe_of, stamp_of};
ghost use Rattle.brick_state.specs.Changes.{changed};
ghost use Rattle.brick_state.specs.Times.{greatest, stripe_time};
ghost use Rattle.brick_state.specs.TopTimes.{IsReplaced};
ghost use Rattle.brick_state.specs.ViewStripes.{live_of, time_of, HasRoomAt, MayChange, IsChanged, IsExtended, IsReordered};
ghost use Rattle.brick_state.specs.Maps.{listed, placed, key_of};

use crate::stripes::{Entry, Place, Stripe, StripeChange};
use crate::top_times;
use fab_base::{NoMem, Stamp};
use std::alloc::Global;
use std::collections::BTreeMap;

/// What a change takes away, and what it brings: live records, and the greatest times.
#[derive(Clone, Copy, Drop)]
pub struct Tally {
    /// The live records that the stripe had.
    pub fewer: u32,
    /// The live records that it has.
    pub more: u32,
    /// The greatest time that goes.
    pub lost: u64,
    /// The time that comes.
    pub come: u64,
}

// Lists a stripe that is new, as one where nothing happened, with room for a version.
fn list(alloc: Global, stripes: &mut BTreeMap<u32, Stripe>, place: Place) -> Result<(), NoMem>
    requires ordered { IsOrdered nat_cmp stripes.old }
    requires new { get nat_cmp stripes.old place.2 ≡ None }
    ensures same { listed (placed (key_of place) stripes.new.entries) ≡ listed (placed (key_of place) stripes.old.entries) }
    ensures ordered { IsOrdered nat_cmp stripes.new }
    ensures room { OnOk result (HasRoomAt stripes.new place.2) }
{
    let mut stripe = Stripe::first(alloc, place);
    stripe.added.reserve()?;
    stripes.insert(place.2, stripe)?;
    Ok(())
}

/// Makes room for a change of a stripe.
pub fn make_room(
    alloc: Global,
    stripes: &mut BTreeMap<u32, Stripe>,
    place: Place,
) -> Result<(), NoMem>
    requires { IsOrdered nat_cmp stripes.old }
    ensures same { listed (placed (key_of place) stripes.new.entries) ≡ listed (placed (key_of place) stripes.old.entries) }
    ensures ordered { IsOrdered nat_cmp stripes.new }
    ensures room { OnOk result (HasRoomAt stripes.new place.2) }
    ensures enough { HasRoomAt stripes.old place.2 → IsOk result }
{
    match stripes.get_mut(&place.2) {
        Some(stripe) => {
            stripe.added.reserve()?;
            Ok(())
        }
        None => list(alloc, stripes, place),
    }
}

/// Changes a stripe.
pub fn change(stripes: &mut BTreeMap<u32, Stripe>, number: u32, change: StripeChange) -> Tally
    requires may { MayChange stripes.old number change }
    requires few { live_of stripes.old.entries ≤ 4294967295 }
    ensures changed { IsChanged number (changed change) stripes.old.entries stripes.new.entries }
    ensures some { result.fewer ≤ live_of stripes.old.entries }
    ensures counted { live_of stripes.new.entries + result.fewer ≡ live_of stripes.old.entries + result.more }
    ensures fits { live_of stripes.new.entries ≤ 4294967295 }
    ensures ordered { IsOrdered nat_cmp stripes.new }
    ensures timed { IsReplaced (time_of stripes.old.entries) result.lost result.come (time_of stripes.new.entries) }
{
    match stripes.get_mut(&number) {
        Some(stripe) => {
            let fewer = stripe.weight() as u32;
            let lost = stripe.time_lost(change);
            stripe.change(change);
            let more = stripe.weight() as u32;
            Tally {
                fewer,
                more,
                lost,
                come: change.time_come(),
            }
        }
        None => unreachable!(),
    }
}

/// Adds a version to a stripe that is listed, where it is above the newest one and there is room for it. False where that isn't so: then nothing is changed.
pub fn add_listed(stripes: &mut BTreeMap<u32, Stripe>, number: u32, entry: Entry) -> bool
    ensures ordered { IsOrdered nat_cmp stripes.new }
    ensures left { result ≡ false → stripes.new.entries ≡ stripes.old.entries }
    ensures added { IsTrue result → IsExtended number entry stripes.old.entries stripes.new.entries }
{
    match stripes.get_mut(&number) {
        Some(stripe) => stripe.add(entry),
        None => false,
    }
}

/// Sets the order stamp of a stripe that is listed, and answers the one that it had. None where the stripe isn't listed: then nothing is changed.
pub fn replace_order(
    stripes: &mut BTreeMap<u32, Stripe>,
    number: u32,
    stamp: Stamp,
) -> Option<Stamp>
    ensures ordered { IsOrdered nat_cmp stripes.new }
    ensures none { IfNone result (stripes.new ≡ stripes.old) }
    ensures enough { IsSome (get nat_cmp stripes.old number) → IsSome result }
    ensures replaced { IfSome result (λ replaced. IsReordered number stamp replaced stripes.old.entries stripes.new.entries) }
{
    match stripes.get_mut(&number) {
        Some(stripe) => {
            let replaced = stripe.order;
            stripe.order = stamp;
            Some(replaced)
        }
        None => None,
    }
}

/// The greatest time after one is lost and another one comes.
pub fn top_after(stripes: &BTreeMap<u32, Stripe>, top: u64, lost: u64, come: u64) -> u64
    requires { IsReplaced top lost come (time_of stripes.now.entries) }
    ensures { result ≡ time_of stripes.now.entries }
{
    match top_times::replaced(top, lost, come) {
        Some(time) => time,
        None => top_of_all(stripes),
    }
}

fn top_of_all(stripes: &BTreeMap<u32, Stripe>) -> u64
    ensures { result ≡ greatest (λ s. stripe_time stamp_of (stripe_of s)) (values stripes.now) }
{
    let mut top = 0u64;
    for stripe in stripes.values() {
        top = top.max(stripe.top_time());
    }
    top
}
