//! What a member decides on each request (Frølund 2004, the storage replica). Nothing is changed here.

ghost use Rattle.std.specs.Prelude.{◌≡◌, ◌<◌, ℕ, Bool, false, nat_eq, Option, Some, IfOk, IfNone, IsTrue, length, map, option_map, unwrap_or, if◌then◌else◌};
ghost use Rattle.fab_base.specs.Stamps.{stamp_below};
ghost use Rattle.messages.specs.declared.replies.Reply.TheVariants.{Found, Later};
ghost use Rattle.version_log.specs.Versions.{version, IsRising};
ghost use Rattle.messages.specs.declared.requests.Version.{Version};
ghost use Rattle.protocol.specs.Replicas.{is_held, is_wanted, is_changed, told_version, top_of, newest_of, looked_up, under, handle, ordered, order_read, written, modified, modified_block, stays, promised, collected, unless_full};
ghost use Rattle.replica.specs.Courses.{fits_block};
ghost use Rattle.stripe_code.specs.Codes.{block_code};
ghost use Rattle.replica.specs.Parts.{as_version, log_seen, part_seen, IsBegun};
ghost use Rattle.replica.specs.Plans.{settled_reply, planned, IsAboveNewest, IsStorable, IsChange};
ghost use Rattle.replica.specs.Calls.{shares_block};

use crate::plans::Plan;
use crate::seats::Member;
use brick_store::State;
use fab_base::{Bytes, NoMem, Stamp};
use messages::{Look, Reply, Request, Version, Want};
use std::alloc::Global;

/// Whether the member at this seat is to send its block.
fn is_wanted(want: Want, seat: u8) -> bool
    ensures { result ≡ is_wanted want seat }
{
    match want {
        Want::Seat(wanted) => wanted == seat,
        Want::All => true,
    }
}

/// The version to tell: without its bytes where they are not wanted.
fn told(
    alloc: Global,
    wanted: bool,
    found: Option<(Stamp, &Bytes)>,
) -> Result<Option<Version>, NoMem>
    ensures { IfOk result (λ made. made ≡ told_version wanted (option_map (λ v. as_version (version v.0 v.1.now)) found.entry)) }
{
    match found {
        None => Ok(None),
        Some((stamp, bytes)) => {
            let block = if wanted {
                bytes.copy(alloc)?
            } else {
                Bytes::empty(alloc)
            };
            Ok(Some(Version { stamp, block }))
        }
    }
}

/// The greater of the order stamp and the newest version's.
#[tactic(auto, unfolding(protocol::specs::Replicas::top_of))]
fn top(part: &State<'_>) -> Stamp
    ensures { (start : Bool) → result ≡ top_of (part_seen part.now start) }
{
    let order = part.order();
    match part.newest() {
        None => order,
        Some((newest, _)) => {
            if order.is_below(newest) {
                newest
            } else {
                order
            }
        }
    }
}

/// Whether the member has a version of this stamp.
fn is_held(part: &State<'_>, stamp: Stamp) -> bool
    ensures { result ≡ is_held stamp (log_seen part.now) }
{
    part.at(stamp).is_some()
}

/// The version that is looked for.
fn look_up<'a>(part: &'a State<'_>, look: Look) -> Option<(Stamp, &'a Bytes)>
    requires { IsRising part.now.log }
    ensures { option_map (λ v. as_version (version v.0 v.1.now)) result ≡ looked_up look (log_seen part.now) }
{
    match look {
        Look::Below(bound) => part.below(bound),
        Look::At(stamp) => match part.at(stamp) {
            Some(block) => Some((stamp, block)),
            None => None,
        },
    }
}

/// The newest version, of those below a stamp if there is one.
fn look_under<'a>(part: &'a State<'_>, bound: Option<Stamp>) -> Option<(Stamp, &'a Bytes)>
    requires { IsRising part.now.log }
    ensures { option_map (λ v. as_version (version v.0 v.1.now)) result ≡ newest_of (under bound (log_seen part.now)) }
{
    match bound {
        None => part.newest(),
        Some(stamp) => part.below(stamp),
    }
}

/// That version, to be told with its block.
pub(crate) fn newest_under(
    alloc: Global,
    part: &State<'_>,
    bound: Option<Stamp>,
) -> Result<Option<Version>, NoMem>
    requires { IsRising part.now.log }
    ensures { IfOk result (λ found. found ≡ newest_of (under bound (log_seen part.now))) }
{
    told(alloc, true, look_under(part, bound))
}

/// A promise, with the reply that says so. One of the very stamp that is kept needs no change.
fn promise(part: &State<'_>, stamp: Stamp, reply: Reply) -> Plan
    requires { stamp_below stamp part.now.order ≡ false }
    ensures plan { (full : Option ℕ) (start : Bool) → planned full (part_seen part.now start) result
        ≡ unless_full full (part_seen part.now start) (promised (part_seen part.now start) stamp reply) }
    ensures change { (size : ℕ) (shares start : Bool) → IsChange size shares (part_seen part.now start) result }
{
    if part.order().is_same(stamp) {
        Plan::Tell(reply)
    } else {
        Plan::Promise(stamp, reply)
    }
}

/// Tells the order stamp and the newest version.
fn read(alloc: Global, part: &State<'_>, wanted: bool) -> Result<Plan, NoMem>
    ensures plan { IfOk result (λ plan. (full : Option ℕ) (start : Bool) → planned full (part_seen part.now start) plan
        ≡ stays (part_seen part.now start) (Found part.now.order (told_version wanted (newest_of (log_seen part.now))))) }
    ensures change { IfOk result (λ plan. (size : ℕ) (shares start : Bool) → IsChange size shares (part_seen part.now start) plan) }
{
    let newest = told(alloc, wanted, part.newest())?;
    Ok(Plan::Tell(Reply::Found {
        order: part.order(),
        newest,
    }))
}

/// Promises to take nothing below the stamp, unless something later was promised or stored.
fn order(part: &State<'_>, stamp: Stamp) -> Plan
    ensures plan { (full : Option ℕ) (start : Bool) → planned full (part_seen part.now start) result
        ≡ ordered full (part_seen part.now start) stamp }
    ensures change { (size : ℕ) (shares start : Bool) → IsChange size shares (part_seen part.now start) result }
{
    let top = top(part);
    if stamp.is_below(top) {
        return Plan::Tell(Reply::Later { stamp: top });
    }
    promise(part, stamp, Reply::Ordered)
}

/// Promises, and tells the version that is looked for, unless something later was promised or stored.
fn order_read(
    alloc: Global,
    part: &State<'_>,
    stamp: Stamp,
    look: Look,
    wanted: bool,
) -> Result<Plan, NoMem>
    requires { IsRising part.now.log }
    ensures plan { IfOk result (λ plan. (full : Option ℕ) (start : Bool) → planned full (part_seen part.now start) plan
        ≡ order_read full (part_seen part.now start) stamp look wanted) }
    ensures change { IfOk result (λ plan. (size : ℕ) (shares start : Bool) → IsChange size shares (part_seen part.now start) plan) }
{
    let top = top(part);
    if stamp.is_below(top) {
        return Ok(Plan::Tell(Reply::Later { stamp: top }));
    }
    let found = told(alloc, wanted, look_up(part, look))?;
    Ok(promise(part, stamp, Reply::OrderedRead { found }))
}

/// The reply to a request to store a version that is held already, or that is below what was promised or stored.
fn settled_reply(part: &State<'_>, stamp: Stamp) -> Option<Reply>
    ensures value { (start : Bool) → result ≡ settled_reply (part_seen part.now start) stamp }
    ensures above { IfNone result (IsAboveNewest (log_seen part.now) stamp) }
{
    if is_held(part, stamp) {
        return Some(Reply::Stored);
    }
    let top = top(part);
    if stamp.is_below(top) {
        return Some(Reply::Later { stamp: top });
    }
    None
}

/// Stores a version, unless something later was promised or stored. One that is held is stored already.
fn write(alloc: Global, part: &State<'_>, stamp: Stamp, block: &Bytes) -> Result<Plan, NoMem>
    ensures plan { IfOk result (λ plan. (full : Option ℕ) (start : Bool) → planned full (part_seen part.now start) plan
        ≡ written full (part_seen part.now start) stamp block.now) }
    ensures change { IfOk result (λ plan. (start : Bool) → IsChange (length block.now) false (part_seen part.now start) plan) }
{
    if let Some(reply) = settled_reply(part, stamp) {
        return Ok(Plan::Tell(reply));
    }
    Ok(Plan::Store(stamp, Some(block.copy(alloc)?)))
}

/// The block of a version whose base has this one, once a data block changed. None where it is that of the base.
fn changed_block(
    alloc: Global,
    member: Member,
    data_block: u8,
    delta: &Bytes,
    block: &Bytes,
) -> Result<Option<Bytes>, NoMem>
    requires data_block { data_block < member.m }
    requires delta { length delta.now ≡ (if is_changed member.m data_block member.seat then member.block else 0) }
    ensures block { IfOk result (λ made. unwrap_or made block.now ≡ modified_block (block_code member.block) member.m data_block
        member.seat delta.now block.now) }
    ensures storable { IfOk result (λ made. (base : Version) → IsStorable member.block (nat_eq (length delta.now) 0) (Some base) made) }
{
    if !member.is_changed(data_block) {
        return Ok(None);
    }
    let changed = stripe_code::modify(
        alloc,
        member.m,
        member.block,
        data_block,
        member.seat,
        delta.as_slice(),
        block.as_slice(),
    )?;
    Ok(Some(changed))
}

/// Stores a version that differs from its base by what a data block changed by, where the base is the newest version, unless something later was
/// promised or stored. One that is held is stored already.
fn modify(
    alloc: Global,
    member: Member,
    part: &State<'_>,
    stamp: Stamp,
    base: Stamp,
    data_block: u8,
    delta: &Bytes,
) -> Result<Plan, NoMem>
    requires data_block { data_block < member.m }
    requires delta { length delta.now ≡ (if is_changed member.m data_block member.seat then member.block else 0) }
    ensures plan { IfOk result (λ plan. (full : Option ℕ) (start : Bool) → planned full (part_seen part.now start) plan
        ≡ modified (block_code member.block) member.m full member.seat (part_seen part.now start) stamp base data_block delta.now) }
    ensures change { IfOk result (λ plan. (start : Bool) → IsChange member.block (nat_eq (length delta.now) 0) (part_seen part.now start) plan) }
{
    if let Some(reply) = settled_reply(part, stamp) {
        return Ok(Plan::Tell(reply));
    }
    let Some((newest, block)) = part.newest() else {
        return Ok(Plan::Tell(Reply::Behind { newest: None }));
    };
    if !newest.is_same(base) {
        return Ok(Plan::Tell(Reply::Behind {
            newest: Some(newest),
        }));
    }
    let block = changed_block(alloc, member, data_block, delta, block)?;
    Ok(Plan::Store(stamp, block))
}

/// Drops the versions below one that is held. Where that is not held, or none is below it, nothing is to be done.
fn collect(part: &State<'_>, stamp: Stamp) -> Plan
    ensures plan { (full : Option ℕ) (start : Bool) → IsBegun start (log_seen part.now) → planned full (part_seen part.now start) result
        ≡ collected (part_seen part.now start) stamp }
    ensures change { (size : ℕ) (shares start : Bool) → IsChange size shares (part_seen part.now start) result }
{
    if is_held(part, stamp) && part.below(stamp).is_some() {
        Plan::Collect(stamp)
    } else {
        Plan::Ignore
    }
}

/// What a member is to do with a request.
#[tactic(auto, unfolding(protocol::specs::Replicas::handle))]
pub(crate) fn decide(
    alloc: Global,
    member: Member,
    part: &State<'_>,
    request: &Request,
) -> Result<Plan, NoMem>
    requires rising { IsRising part.now.log }
    requires fits { IsTrue (fits_block member.block member.m member.seat request.now) }
    ensures plan { IfOk result (λ plan. (full : Option ℕ) (start : Bool) → IsBegun start (log_seen part.now)
        → planned full (part_seen part.now start) plan
        ≡ handle (block_code member.block) member.m full member.seat (part_seen part.now start) request.now) }
    ensures change { IfOk result (λ plan. (start : Bool) → IsChange member.block (shares_block request.now) (part_seen part.now start) plan) }
{
    match request {
        Request::Read { want } => read(alloc, part, is_wanted(*want, member.seat)),
        Request::Order { stamp } => Ok(order(part, *stamp)),
        Request::OrderRead { stamp, look, want } => {
            order_read(alloc, part, *stamp, *look, is_wanted(*want, member.seat))
        }
        Request::Write { stamp, block } => write(alloc, part, *stamp, block),
        Request::Modify {
            stamp,
            base,
            data_block,
            delta,
        } => modify(alloc, member, part, *stamp, *base, *data_block, delta),
        Request::Collect { stamp } => Ok(collect(part, *stamp)),
        Request::OldRead { .. } | Request::Prepare { .. } | Request::Accept { .. } => {
            Ok(Plan::Ignore)
        }
    }
}
