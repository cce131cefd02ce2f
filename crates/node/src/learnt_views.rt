//! What a brick has learnt of views, as its store keeps it.

ghost use Rattle.std.specs.Prelude.{◌≡◌, ◌<◌, true, false, Some, option_map, length};
ghost use Rattle.fab_base.specs.Layouts as layouts;
ghost use Rattle.fab_base.specs.Layouts.{group_of, most_groups};
ghost use Rattle.quorum.specs.Quorums.{IsWithinLimits};
ghost use Rattle.coord_phase.specs.Operations.{PriorIsWithinLimits};
ghost use Rattle.brick_state.specs.States.{group_at};
ghost use Rattle.protocol.specs.Views.{may_be_taught};
ghost use Rattle.replica.specs.Parts.{learnt_in, lists_stand, may_be_accepted, ListsStand};

use crate::teaching::is_view;
use brick_state::MOST_GROUPS;
use brick_store::BrickStore;
use fab_base::{Ballot, GroupId, Members, View, ViewNo};
use fab_disk::Disk;
use layout::{Group, Layout};
use quorum::is_membership;

/// The view that a brick has learnt of a group of the layout: its first view, until it learns a later one.
pub(crate) fn learnt_view<D: Disk>(store: &BrickStore<D>, number: GroupId, group: &Group) -> View
    requires few { number.0 < most_groups }
    ensures view { (layout : layouts.Layout) → group_of layout number.0 ≡ Some group.now → result ≡ (learnt_in layout store.now.state number.0).view }
    ensures limits { (layout : layouts.Layout) → group_of layout number.0 ≡ Some group.now → ListsStand layout store.now.state
        → IsWithinLimits group.now.m (length result.members) }
    ensures prior { (layout : layouts.Layout) → group_of layout number.0 ≡ Some group.now → ListsStand layout store.now.state
        → PriorIsWithinLimits group.now.m result.number result.prior }
{
    // The call only tells limits.
    let _ = group.policy();
    match store.known_view(number) {
        Some((view, _)) => view,
        None => group.first_view(),
    }
}

/// Whether a brick knows that all stripes of a group of the layout are kept in the view that it has learnt.
pub(crate) fn is_synced<D: Disk>(store: &BrickStore<D>, number: GroupId) -> bool
    requires few { number.0 < most_groups }
    ensures { (layout : layouts.Layout) → result ≡ (learnt_in layout store.now.state number.0).synced }
{
    match store.known_view(number) {
        Some((_, synced)) => synced,
        None => true,
    }
}

/// The number of the view that a brick has learnt of a group.
pub(crate) fn learnt_number<D: Disk>(store: &BrickStore<D>, group: GroupId) -> ViewNo
    ensures { (layout : layouts.Layout) → result.0 ≡ (learnt_in layout store.now.state group.0).view.number.0 }
{
    if group.0 < MOST_GROUPS {
        return store.learnt(group);
    }
    // The call only tells that no view of such a group is learnt.
    let _ = store.known_view(GroupId(0));
    ViewNo(1)
}

/// Whether the lists of a view that was learnt, if one was, may keep a group.
fn may_be_taught(m: u8, bricks: u16, learnt: Option<(View, bool)>) -> bool
    ensures { result ≡ may_be_taught m bricks (option_map (λ known. known.0) learnt) }
{
    match learnt {
        None => true,
        Some((view, _)) => is_view(m, bricks, &view),
    }
}

/// Whether a list that was accepted, if one was, may keep a group.
fn may_be_accepted(m: u8, bricks: u16, accepted: Option<(Ballot, Members)>) -> bool
    ensures { result ≡ may_be_accepted m bricks accepted }
{
    match accepted {
        None => true,
        Some((_, members)) => is_membership(m, bricks, members.as_slice()),
    }
}

/// Whether the lists of members that a store keeps of a group may keep it: those of the view that was learnt, and the one that was accepted.
fn stand_of<D: Disk>(store: &BrickStore<D>, number: GroupId, m: u8, bricks: u16) -> bool
    requires few { number.0 < most_groups }
    ensures { result ≡ lists_stand m bricks (group_at store.now.state number.0) }
{
    may_be_taught(m, bricks, store.known_view(number))
        && may_be_accepted(m, bricks, store.accepted(number))
}

/// Whether the lists of members that a store keeps of the layout's groups may keep these.
pub(crate) fn do_lists_stand<D: Disk>(store: &BrickStore<D>, layout: &Layout) -> bool
    ensures stand { result ≡ true → ListsStand layout.now store.now.state }
    ensures fall { result ≡ false → ListsStand layout.now store.now.state → ⊥ }
{
    let bricks = layout.bricks();
    for (number, group) in layout.groups().iter().enumerate() {
        if !stand_of(store, GroupId(number as u32), group.m(), bricks) {
            return false;
        }
    }
    true
}
