//! Changes of the log of a stripe.

ghost use Rattle.std.specs.Prelude.{◌≡◌, ◌<◌, ◌==◌, ◌&&◌, ◌||◌, false, Some, None, if◌then◌else◌, length, not};
ghost use Rattle.brick_state.specs.States.{live_in, stripe_in, with_added, with_bottom, with_collected, stamp_of, newest_entry, has_version};
ghost use Rattle.brick_state.specs.Maps.{listed_in, HasRoom, AnswersAt};
ghost use Rattle.brick_state.specs.Tallies.{HasSlotRoom};
ghost use Rattle.brick_state.specs.Folds.{log_changed, same_added, is_above, slot_limits, slot_named};

use crate::stripe_maps;
use crate::stripe_tables::StripeTable;
use crate::stripes::{Entry, Place, ZERO_SLOT};
use fab_base::Stamp;
use stamp_store::LogChange;
use version_log::Version;

/// Changes a log, for which there is room. False where it can't be: then nothing is changed. `full` tells whether there are
/// as many live records as there may be.
#[tactic(auto, unfolding(crate::specs::Folds::log_changed))]
pub fn change_log(
    stripes: &mut StripeTable,
    place: Place,
    stamp: Stamp,
    change: LogChange,
    full: bool,
) -> bool
    requires room { HasRoom stripes.old.views place }
    requires slot { HasSlotRoom stripes.old.slots stripes.old.counts (slot_named change) }
    requires fits { full ≡ false → live_in (listed_in stripes.old.views) < 4294967295 }
    ensures answer { AnswersAt place (listed_in stripes.old.views) (listed_in stripes.new.views)
        (log_changed (slot_limits stripes.old.slots) full change stamp (stripe_in (listed_in stripes.old.views) place)) result }
    ensures slots { stripes.new.slots ≡ stripes.old.slots }
{
    match change {
        LogChange::Same => add_same(stripes, place, stamp, full),
        LogChange::Collect => collect_held(stripes, place, stamp),
        LogChange::Slot { bottom, slot } => {
            if slot != ZERO_SLOT && !stripes.has_slot(slot) {
                return false;
            }
            let entry = Version { stamp, block: slot };
            if bottom {
                add_bottom(stripes, place, entry, full)
            } else {
                add_above(stripes, place, entry, full)
            }
        }
    }
}

fn add_same(stripes: &mut StripeTable, place: Place, stamp: Stamp, full: bool) -> bool
    requires room { HasRoom stripes.old.views place }
    requires fits { full ≡ false → live_in (listed_in stripes.old.views) < 4294967295 }
    ensures answer { AnswersAt place (listed_in stripes.old.views) (listed_in stripes.new.views)
        (if full then None else same_added (newest_entry (stripe_in (listed_in stripes.old.views) place)) stamp
        (stripe_in (listed_in stripes.old.views) place)) result }
    ensures slots { stripes.new.slots ≡ stripes.old.slots }
{
    if full {
        return false;
    }
    match stripes.newest(place) {
        Some(below) => {
            if !below.stamp.is_below(stamp) {
                return false;
            }
            let entry = Version {
                stamp,
                block: below.block,
            };
            stripes.add(place, entry);
            true
        }
        None => false,
    }
}

fn add_above(stripes: &mut StripeTable, place: Place, entry: Entry, full: bool) -> bool
    requires room { HasRoom stripes.old.views place }
    requires slot { HasSlotRoom stripes.old.slots stripes.old.counts entry.block }
    requires fits { full ≡ false → live_in (listed_in stripes.old.views) < 4294967295 }
    ensures answer { AnswersAt place (listed_in stripes.old.views) (listed_in stripes.new.views)
        (if full || not (is_above (newest_entry (stripe_in (listed_in stripes.old.views) place)) entry.stamp) then None else Some
        (with_added entry (stripe_in (listed_in stripes.old.views) place))) result }
    ensures slots { stripes.new.slots ≡ stripes.old.slots }
{
    if full {
        return false;
    }
    if let Some(below) = stripes.newest(place) {
        if !below.stamp.is_below(entry.stamp) {
            return false;
        }
    }
    stripes.add(place, entry);
    true
}

fn add_bottom(stripes: &mut StripeTable, place: Place, entry: Entry, full: bool) -> bool
    requires room { HasRoom stripes.old.views place }
    requires slot { HasSlotRoom stripes.old.slots stripes.old.counts entry.block }
    requires fits { full ≡ false → live_in (listed_in stripes.old.views) < 4294967295 }
    ensures answer { AnswersAt place (listed_in stripes.old.views) (listed_in stripes.new.views)
        (if (length (stripe_in (listed_in stripes.old.views) place).added == 0) && full then None else Some
        (with_bottom entry (stripe_in (listed_in stripes.old.views) place))) result }
    ensures slots { stripes.new.slots ≡ stripes.old.slots }
{
    let count = match stripe_maps::find(stripes.views(), place) {
        Some(stripe) => stripe.added.len(),
        None => 0,
    };
    if count == 0 && full {
        return false;
    }
    stripes.set_bottom(place, entry);
    true
}

fn collect_held(stripes: &mut StripeTable, place: Place, stamp: Stamp) -> bool
    requires room { HasRoom stripes.old.views place }
    ensures answer { AnswersAt place (listed_in stripes.old.views) (listed_in stripes.new.views)
        (if has_version stamp (stripe_in (listed_in stripes.old.views) place) then Some
        (with_collected stamp_of stamp (stripe_in (listed_in stripes.old.views) place)) else None) result }
    ensures slots { stripes.new.slots ≡ stripes.old.slots }
{
    let held = match stripe_maps::find(stripes.views(), place) {
        Some(stripe) => stripe.has(stamp),
        None => place.1 == 1 && Stamp::FIRST.is_same(stamp),
    };
    if held {
        stripes.collect(place, stamp);
    }
    held
}
