//! The records that bring back what is kept from nothing.

ghost use Rattle.std.specs.Prelude.{◌≡◌, ◌≤◌, ◌++◌, ◌∷◌, [], length, OnOk};
ghost use Rattle.fab_base.specs.Layouts.{most_groups};
ghost use Rattle.brick_state.specs.Rewrites.{learnt_number, view_records, ballot_records, group_records, groups_records, order_records, version_change, version_record, version_records, start_of, stripe_records, stripes_records};
ghost use Rattle.brick_state.specs.States.{stripe_of};
ghost use Rattle.brick_state.specs.Maps.{listed, listed_in, placed};

use crate::groups::Group;
use crate::records::Record;
use crate::stripe_maps::{ViewKey, Views};
use crate::stripes::{Entry, FIRST_ENTRY, Place, Stripe};
use fab_base::{Ballot, GroupId, Members, NoMem, Stamp, StripeNo, View, ViewNo};
use stamp_store::{Kept, LogChange, Logged};
use std::collections::BTreeMap;

/// Adds the records of all groups.
pub fn put_groups(records: &mut Vec<Record>, groups: &[Group]) -> Result<(), NoMem>
    requires { length groups.now ≤ most_groups }
    ensures { OnOk result (records.new.items ≡ records.old.items ++ groups_records 0 groups.now) }
{
    for (number, group) in groups.iter().enumerate() {
        put_group(records, number as u32, group)?;
    }
    Ok(())
}

fn put_group(records: &mut Vec<Record>, number: u32, group: &Group) -> Result<(), NoMem>
    ensures { OnOk result (records.new.items ≡ records.old.items ++ group_records number group.now) }
{
    put_view(records, number, &group.known)?;
    let view = learnt_number(&group.known);
    put_ballots(records, number, view, &group.ballots)
}

fn put_view(
    records: &mut Vec<Record>,
    number: u32,
    known: &Option<(View, bool)>,
) -> Result<(), NoMem>
    ensures { OnOk result (records.new.items ≡ records.old.items ++ view_records number known.now) }
{
    match known {
        None => Ok(()),
        Some((view, synced)) => {
            records.push(Record::Kept(Kept::View {
                group: GroupId(number),
                view: view.copy(),
                synced: *synced,
            }))?;
            Ok(())
        }
    }
}

fn learnt_number(known: &Option<(View, bool)>) -> u32
    ensures { result ≡ learnt_number known.now }
{
    match known {
        None => 1,
        Some((view, _)) => view.number.0,
    }
}

fn put_ballots(
    records: &mut Vec<Record>,
    number: u32,
    view: u32,
    ballots: &Option<(Ballot, Option<(Ballot, Members)>)>,
) -> Result<(), NoMem>
    ensures { OnOk result (records.new.items ≡ records.old.items ++ ballot_records number view ballots.now) }
{
    match ballots {
        None => Ok(()),
        Some((promised, accepted)) => {
            records.push(Record::Kept(Kept::Ballots {
                group: GroupId(number),
                view: ViewNo(view),
                promised: *promised,
                accepted: copied(accepted),
            }))?;
            Ok(())
        }
    }
}

fn copied(accepted: &Option<(Ballot, Members)>) -> Option<(Ballot, Members)>
    ensures { result ≡ accepted.now }
{
    match accepted {
        Some((ballot, members)) => Some((*ballot, members.copy())),
        None => None,
    }
}

/// Adds the records of all stripes.
pub fn put_stripes(records: &mut Vec<Record>, views: &Views) -> Result<(), NoMem>
    ensures { OnOk result (records.new.items ≡ records.old.items ++ stripes_records (listed_in views.now)) }
{
    for (key, table) in views {
        put_table(records, *key, table.stripes())?;
    }
    Ok(())
}

fn put_table(
    records: &mut Vec<Record>,
    key: ViewKey,
    stripes: &BTreeMap<u32, Stripe>,
) -> Result<(), NoMem>
    ensures { OnOk result (records.new.items ≡ records.old.items ++ stripes_records (listed (placed key stripes.now.entries))) }
{
    for (number, stripe) in stripes {
        put_stripe(records, (key.0, key.1, *number), stripe)?;
    }
    Ok(())
}

fn put_stripe(records: &mut Vec<Record>, place: Place, stripe: &Stripe) -> Result<(), NoMem>
    ensures { OnOk result (records.new.items ≡ records.old.items ++ stripe_records place (stripe_of stripe.now)) }
{
    put_order(records, place, stripe.order)?;
    let start = if stripe.from_start {
        Some(FIRST_ENTRY)
    } else {
        None
    };
    put_versions(records, place, start, stripe.added.versions())
}

fn put_order(records: &mut Vec<Record>, place: Place, stamp: Stamp) -> Result<(), NoMem>
    ensures { OnOk result (records.new.items ≡ records.old.items ++ order_records place stamp) }
{
    if stamp.is_same(Stamp::FIRST) {
        return Ok(());
    }
    records.push(Record::Kept(Kept::Order {
        group: GroupId(place.0),
        view: ViewNo(place.1),
        stripe: StripeNo(place.2),
        stamp,
    }))?;
    Ok(())
}

fn put_versions(
    records: &mut Vec<Record>,
    place: Place,
    start: Option<Entry>,
    entries: &[Entry],
) -> Result<(), NoMem>
    ensures { OnOk result (records.new.items ≡ records.old.items ++ version_records place start entries.now) }
{
    let mut under = start;
    for entry in entries {
        let entry = *entry;
        records.push(version_record(place, under, entry))?;
        under = Some(entry);
    }
    Ok(())
}

fn version_record(place: Place, under: Option<Entry>, entry: Entry) -> Record
    ensures { result ≡ version_record place under entry }
{
    Record::Logged(Logged {
        group: GroupId(place.0),
        view: ViewNo(place.1),
        stripe: StripeNo(place.2),
        stamp: entry.stamp,
        change: version_change(under, entry),
    })
}

fn version_change(under: Option<Entry>, entry: Entry) -> LogChange
    ensures { result ≡ version_change under entry }
{
    match under {
        None => LogChange::Slot {
            bottom: true,
            slot: entry.block,
        },
        Some(below) => {
            if below.block == entry.block {
                LogChange::Same
            } else {
                LogChange::Slot {
                    bottom: false,
                    slot: entry.block,
                }
            }
        }
    }
}
