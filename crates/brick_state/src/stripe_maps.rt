//! The stripes of a brick by group and view, and in each view by their numbers. Places where nothing happened may be in the
//! map or not: a clause sees no difference.

ghost use Rattle.std.specs.Prelude.{◌≡◌, true, false, IsTrue, ◌+◌, ◌<◌, ◌≤◌, [], filter, IsOk, OnOk, IsSome, IfNone, IfSome};
ghost use Rattle.std.specs.Map.{keys_of};
ghost use Rattle.std.specs.BTreeMap.{get, values};
ghost use Rattle.std.specs.List.Sorted.{IsStrictlySortedBy};
ghost use Rattle.brick_state.specs.States.{place_cmp, weight, first_stripe, stripe_in, stripe_of, stamp_of, put, live_in};
ghost use Rattle.brick_state.specs.Changes.{changed, IsAllowed};
ghost use Rattle.brick_state.specs.Times.{greatest, time_in};
ghost use Rattle.brick_state.specs.ViewStripes.{time_of};
ghost use Rattle.brick_state.specs.Maps.{listed_in, HasRoom, IsExtendedAt, IsReorderedAt, view_cmp, is_below_view};

use crate::stripes::{Entry, Place, Stripe, StripeChange};
use crate::view_tables::ViewTable;
use fab_base::{NoMem, Stamp};
use std::alloc::Global;
use std::collections::BTreeMap;

/// A view of a group: the group, and the view's number.
pub type ViewKey = (u32, u32);

/// The stripes of each view of each group.
pub type Views = BTreeMap<ViewKey, ViewTable>;

/// The stripe at a place, where the map has it. Where it has none, nothing happened there.
pub fn find(views: &Views, place: Place) -> Option<&Stripe>
    ensures none { IfNone result (stripe_in (listed_in views.now) place ≡ first_stripe place) }
    ensures some { IfSome result (λ stripe. stripe_in (listed_in views.now) place ≡ stripe_of stripe.now) }
    ensures sorted { IsStrictlySortedBy place_cmp (keys_of (listed_in views.now)) }
{
    // `len` tells that the keys are in order.
    let _count = views.len();
    let key = (place.0, place.1);
    match views.get(&key) {
        Some(table) => table.stripes().get(&place.2),
        None => None,
    }
}

/// The order stamp of a stripe.
pub fn order(views: &Views, place: Place) -> Stamp
    ensures order { result ≡ (stripe_in (listed_in views.now) place).order }
    ensures sorted { IsStrictlySortedBy place_cmp (keys_of (listed_in views.now)) }
{
    match find(views, place) {
        Some(stripe) => stripe.order,
        None => Stamp::FIRST,
    }
}

/// The versions that were added to a stripe and not dropped since.
pub fn added(views: &Views, place: Place) -> &[Entry]
    ensures added { result.now ≡ (stripe_in (listed_in views.now) place).added }
    ensures sorted { IsStrictlySortedBy place_cmp (keys_of (listed_in views.now)) }
{
    match find(views, place) {
        Some(stripe) => stripe.added.versions(),
        None => &[],
    }
}

/// The greatest time of the order stamps and of the versions added, 0 where there is none.
pub fn top_time(views: &Views) -> u64
    ensures { result ≡ time_in stamp_of (listed_in views.now) }
{
    top_of_all(views)
}

fn top_of_all(views: &Views) -> u64
    ensures { result ≡ greatest (λ table. time_of table.stripes.entries) (values views.now) }
{
    let mut top = 0u64;
    for table in views.values() {
        top = top.max(table.top_time());
    }
    top
}

// Lists a view, without stripes where it is new.
fn make_table(alloc: Global, views: &mut Views, key: ViewKey) -> Result<(), NoMem>
    ensures same { listed_in views.new ≡ listed_in views.old }
    ensures there { OnOk result (IsSome (get view_cmp views.new key)) }
    ensures enough { IsSome (get view_cmp views.old key) → IsOk result × (views.new ≡ views.old) }
{
    if views.contains_key(&key) {
        return Ok(());
    }
    views.insert(key, ViewTable::new(alloc))?;
    Ok(())
}

/// Makes room for a change of a stripe.
pub fn make_room(alloc: Global, views: &mut Views, place: Place) -> Result<(), NoMem>
    ensures same { listed_in views.new ≡ listed_in views.old }
    ensures room { OnOk result (HasRoom views.new place) }
    ensures enough { HasRoom views.old place → IsOk result }
{
    let key = (place.0, place.1);
    make_table(alloc, views, key)?;
    match views.get_mut(&key) {
        Some(table) => table.make_room(alloc, place),
        None => Ok(()),
    }
}

/// Changes a stripe, for which there is room.
pub fn change(views: &mut Views, place: Place, change: StripeChange)
    requires room { HasRoom views.old place }
    requires allowed { IsAllowed change (stripe_in (listed_in views.old) place) }
    requires fits { live_in (listed_in views.old) + weight (changed change (stripe_in (listed_in views.old) place))
        ≤ 4294967295 + weight (stripe_in (listed_in views.old) place) }
    ensures sorted { IsStrictlySortedBy place_cmp (keys_of (listed_in views.old)) }
    ensures changed { listed_in views.new ≡ put place (changed change (stripe_in (listed_in views.old) place)) (listed_in views.old) }
{
    let key = (place.0, place.1);
    if let Some(table) = views.get_mut(&key) {
        table.change(place.2, change);
    }
}

/// Sets the order stamp of a stripe that is listed, and answers the one that it had. None where the stripe isn't listed: then nothing is changed.
pub fn replace_order(views: &mut Views, place: Place, stamp: Stamp) -> Option<Stamp>
    requires few { live_in (listed_in views.old) < 4294967295 }
    ensures sorted { IsStrictlySortedBy place_cmp (keys_of (listed_in views.old)) }
    ensures none { IfNone result (listed_in views.new ≡ listed_in views.old) }
    ensures enough { HasRoom views.old place → IsSome result }
    ensures replaced { IfSome result (λ replaced. IsReorderedAt place stamp replaced (listed_in views.old) (listed_in views.new)) }
{
    match views.get_mut(&(place.0, place.1)) {
        Some(table) => table.replace_order(place.2, stamp),
        None => None,
    }
}

/// Adds a version to a stripe that is listed, where it is above the newest one and there is room for it. False where that isn't so: then nothing is changed.
pub fn add_listed(views: &mut Views, place: Place, entry: Entry) -> bool
    requires few { live_in (listed_in views.old) < 4294967295 }
    ensures sorted { IsStrictlySortedBy place_cmp (keys_of (listed_in views.old)) }
    ensures left { result ≡ false → listed_in views.new ≡ listed_in views.old }
    ensures room { HasRoom views.old place → result ≡ false → HasRoom views.new place }
    ensures added { IsTrue result → IsExtendedAt place entry (listed_in views.old) (listed_in views.new) }
{
    match views.get_mut(&(place.0, place.1)) {
        Some(table) => table.add_listed(place.2, entry),
        None => false,
    }
}

/// The least view of a group below one.
pub fn first_below(views: &Views, group: u32, first: u32) -> Option<ViewKey>
    ensures some { IfSome result (λ key. is_below_view group first key ≡ true) }
    ensures there { IfSome result (λ key. IsSome (get view_cmp views.now key)) }
    ensures none { IfNone result (filter (λ e. is_below_view group first e.0) views.now.entries ≡ []) }
{
    match views.range((group, 0)..(group, first)).next() {
        Some((key, _)) => Some(*key),
        None => None,
    }
}
