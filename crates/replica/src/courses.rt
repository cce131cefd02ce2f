//! What a brick does with a request, by what it has learnt of the group's views and accepted.

ghost use Rattle.std.specs.Prelude.{◌≡◌, ◌≢◌, ◌<◌, ◌≤◌, ℕ, false, List, [], Some, IfSome, IfOk, is_some, nat_eq, if◌then◌else◌};
ghost use Rattle.fab_base.specs.declared.identities.BrickId.{BrickId};
ghost use Rattle.fab_base.specs.Layouts.{Layout, group_of, seat_in};
ghost use Rattle.synod_laws.specs.Synods.{Kept, last_of};
ghost use Rattle.protocol.specs.Views.{first_kept, kept_by};
ghost use Rattle.protocol.specs.Ballots.{moved_to};
ghost use Rattle.protocol.specs.Nodes.{fits, fits_change};
ghost use Rattle.replica.specs.Parts.{learnt_in};
ghost use Rattle.replica.specs.Handling.{me_of};
ghost use Rattle.replica.specs.Courses.{seat_under, is_void_at, moved_under, served_at, served_unless_moved, old_under, course_in, course_of};
ghost use Rattle.replica.specs.declared.courses.Course.TheVariants.{Void};

use crate::seats::{Member, is_changed, seat_of};
use brick_store::BrickStore;
use fab_base::{Ballot, Boxed, BrickId, Bytes, GroupId, Members, NoMem, Stamp, View, ViewNo};
use fab_disk::Disk;
use layout::{Group, Layout};
use messages::{Call, Lineage, Reply, Request};
use quorum::is_membership;
use std::alloc::Global;
use std::marker::Model;

/// The view that a brick has learnt of a group, and whether all stripes are known to be kept in it.
#[derive(Drop)]
pub(crate) struct Learnt {
    pub view: View,
    pub synced: bool,
}

impl Model for Learnt {
    ghost use Rattle.protocol.specs.Views.{Learnt};

    ghost Value = { Learnt };

    ghost view = { λ learnt. record { view = learnt.view; synced = learnt.synced } };
}

/// What a brick does with a request.
#[derive(Drop)]
pub(crate) enum Course {
    /// It ignores the request.
    Void,
    /// It replies so, and nothing changes.
    Tell(Reply),
    /// It tells its newest version in the call's view, of those below this stamp if there is one, and nothing changes.
    TellOld(Option<Stamp>),
    /// It handles the request as this member of the view that it has learnt.
    Serve(Member),
    /// It votes on this ballot for the successor of the view that it has learnt: it is asked to accept this list, or to promise.
    Vote(Learnt, Ballot, Option<Members>),
}

/// What a brick has learnt of a group of the layout: its first view, until it learns a later one.
pub(crate) fn learnt_of<D: Disk>(store: &BrickStore<D>, number: GroupId, group: &Group) -> Learnt
    requires { number.0 < 64 }
    ensures { (layout : Layout) → group_of layout number.0 ≡ Some group.now → result ≡ learnt_in layout store.now.state number.0 }
{
    match store.known_view(number) {
        Some((view, synced)) => Learnt { view, synced },
        None => Learnt {
            view: View::first(group.members().copy()),
            synced: true,
        },
    }
}

/// A brick's seat in the view of a call, if that is the view that it has learnt.
fn seat_under(me: BrickId, learnt: &Learnt, call: Call) -> Option<u8>
    ensures seat { result ≡ seat_under me learnt.now call learnt.now.view.members }
    ensures few { IfSome result (λ seat. seat < 32) }
{
    if call.view.0 != learnt.view.number.0 {
        return None;
    }
    seat_of(learnt.view.members.as_slice(), me)
}

/// Whether what a seat is sent to modify its block by has the length that it has to have: any length, if it is sent to no seat of the learnt view.
fn fits_change(block: u16, m: u8, data_block: u8, delta: &Bytes, seat: Option<u8>) -> bool
    ensures { result ≡ fits_change block m data_block delta.now seat }
{
    match seat {
        None => true,
        Some(seat) => {
            let expected = if is_changed(m, data_block, seat) {
                block
            } else {
                0
            };
            delta.len() == expected as usize
        }
    }
}

/// Whether what a request names fits a group of m data blocks, at this seat of the learnt view or at none.
fn fits(layout: &Layout, m: u8, call: Call, request: &Request, seat: Option<u8>) -> bool
    ensures { result ≡ fits layout.now m call request.now seat }
{
    match request {
        Request::Write { stamp: _, block } => block.len() == layout.block() as usize,
        Request::Modify {
            stamp: _,
            base: _,
            data_block,
            delta,
        } => *data_block < m && fits_change(layout.block(), m, *data_block, delta, seat),
        Request::Prepare { ballot: _ } => call.view.0 < u32::MAX,
        Request::Accept { ballot: _, members } => {
            call.view.0 < u32::MAX && is_membership(m, layout.bricks(), members.as_slice())
        }
        _ => true,
    }
}

/// Whether a request is void, at this seat of the learnt view or at none.
fn is_void(
    layout: &Layout,
    group: &Group,
    learnt: &Learnt,
    call: Call,
    request: &Request,
    seat: Option<u8>,
) -> bool
    ensures void { result ≡ is_void_at layout.now learnt.now call request.now (kept_by learnt.now.view.members group.now) seat }
    ensures later { result ≡ false → call.view.0 ≤ learnt.now.view.number.0 }
{
    if call.stripe.0 >= group.stripes() || call.view.0 == 0 {
        return true;
    }
    let number = learnt.view.number.0;
    number < call.view.0
        || call.view.0 == number && seat.is_none()
        || !fits(layout, group.m(), call, request, seat)
}

/// How a brick tells that it has learnt this view, later than that of a call.
pub(crate) fn moved_to(alloc: Global, view: &View) -> Result<Reply, NoMem>
    ensures { IfOk result (λ reply. reply ≡ moved_to view.now) }
{
    let lineage = Lineage {
        members: view.members.copy(),
        prior: view.prior.copy(),
    };
    Ok(Reply::Moved {
        view: view.number,
        lineage: Some(Boxed::new(alloc, lineage)?),
    })
}

/// How a brick tells that it serves the view of a call no more, if it does not: it has learnt a later one, or has accepted a list to follow that view. The view
/// is not later than the learnt one.
fn moved_under(
    alloc: Global,
    learnt: &Learnt,
    accepted: bool,
    call: Call,
) -> Result<Option<Reply>, NoMem>
    requires { call.view.0 ≤ learnt.now.view.number.0 }
    ensures { IfOk result (λ moved. (kept : Kept (List BrickId)) → is_some (last_of kept) ≡ accepted → moved ≡ moved_under learnt.now kept call) }
{
    if call.view.0 < learnt.view.number.0 {
        return Ok(Some(moved_to(alloc, &learnt.view)?));
    }
    if learnt.view.number.0 < u32::MAX && accepted {
        return Ok(Some(Reply::Moved {
            view: ViewNo(call.view.0 + 1),
            lineage: None,
        }));
    }
    Ok(None)
}

/// Whether a brick serves the view of a call no more. The view is not later than the learnt one.
fn has_moved(learnt: &Learnt, accepted: bool, call: Call) -> bool
    requires { call.view.0 ≤ learnt.now.view.number.0 }
    ensures { (kept : Kept (List BrickId)) → is_some (last_of kept) ≡ accepted → result ≡ is_some (moved_under learnt.now kept call) }
{
    call.view.0 < learnt.view.number.0 || learnt.view.number.0 < u32::MAX && accepted
}

/// The first view of a group whose versions a brick keeps.
fn first_kept(learnt: &Learnt) -> u32
    ensures { result ≡ first_kept learnt.now }
{
    if learnt.synced {
        learnt.view.number.0
    } else {
        learnt.view.number.0.saturating_sub(1)
    }
}

/// What a brick does that is asked for its newest version in the call's view, of those below a stamp if there is one. The view is not later than the learnt one.
fn old_under(learnt: &Learnt, accepted: bool, call: Call, bound: Option<Stamp>) -> Course
    requires { call.view.0 ≤ learnt.now.view.number.0 }
    ensures { (kept : Kept (List BrickId)) → is_some (last_of kept) ≡ accepted
        → result ≡ old_under learnt.now (moved_under learnt.now kept call) call bound }
{
    if call.view.0 < first_kept(learnt) {
        return Course::Tell(Reply::Retired);
    }
    if has_moved(learnt, accepted, call) {
        return Course::TellOld(bound);
    }
    Course::Void
}

/// The member at a seat serves, if there is one.
fn served_at(layout: &Layout, group: &Group, seat: Option<u8>) -> Course
    requires { IfSome seat (λ seat. seat < 32) }
    ensures { result ≡ served_at layout.now group.now.m seat }
{
    // Both calls only tell limits: a layout has some byte in a block, and a group 1 to 16 data blocks.
    let _ = layout.records();
    let _ = group.policy();
    match seat {
        None => Course::Void,
        Some(seat) => Course::Serve(Member {
            m: group.m(),
            seat,
            block: layout.block(),
        }),
    }
}

/// It serves unless it tells that it serves the view no more.
fn served_unless_moved(
    layout: &Layout,
    group: &Group,
    seat: Option<u8>,
    moved: Option<Reply>,
) -> Course
    requires { IfSome seat (λ seat. seat < 32) }
    ensures { result ≡ served_unless_moved layout.now group.now.m seat moved }
{
    match moved {
        None => served_at(layout, group, seat),
        Some(reply) => Course::Tell(reply),
    }
}

/// What a brick does with a request to a group of the layout, by what it has learnt of it, and whether it has accepted a list to follow that.
fn course_in(
    alloc: Global,
    layout: &Layout,
    group: &Group,
    me: BrickId,
    learnt: Learnt,
    accepted: bool,
    call: Call,
    request: &Request,
) -> Result<Course, NoMem>
    ensures { IfOk result (λ course. (kept : Kept (List BrickId)) → is_some (last_of kept) ≡ accepted → course
        ≡ course_in layout.now me learnt kept call request.now (Some (kept_by learnt.view.members group.now))) }
{
    let seat = seat_under(me, &learnt, call);
    if is_void(layout, group, &learnt, call, request, seat) {
        return Ok(Course::Void);
    }
    Ok(match request {
        Request::Collect { stamp: _ } => served_at(layout, group, seat),
        Request::OldRead { bound } => old_under(&learnt, accepted, call, *bound),
        Request::Prepare { ballot } => Course::Vote(learnt, *ballot, None),
        Request::Accept { ballot, members } => Course::Vote(learnt, *ballot, Some(members.copy())),
        Request::Read { .. }
        | Request::Order { .. }
        | Request::OrderRead { .. }
        | Request::Write { .. }
        | Request::Modify { .. } => {
            let moved = moved_under(alloc, &learnt, accepted, call)?;
            served_unless_moved(layout, group, seat, moved)
        }
    })
}

/// What a brick does with a request. It is of a group of the layout, of which there are at most 64, unless it is ignored.
pub(crate) fn take_course<D: Disk>(
    alloc: Global,
    store: &BrickStore<D>,
    layout: &Layout,
    call: Call,
    request: &Request,
) -> Result<Course, NoMem>
    ensures course { IfOk result (λ course. course ≡ course_of layout.now (me_of store.now) store.now.state call request.now) }
    ensures few { IfOk result (λ course. course ≢ Void → call.group.0 < 64) }
{
    let Some(group) = layout.group(call.group) else {
        return Ok(Course::Void);
    };
    let learnt = learnt_of(store, call.group, group);
    let accepted = store.accepted(call.group).is_some();
    course_in(
        alloc,
        layout,
        group,
        store.me(),
        learnt,
        accepted,
        call,
        request,
    )
}
