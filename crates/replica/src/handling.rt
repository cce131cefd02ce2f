//! Messages to a brick as a member of groups.

ghost use Rattle.std.specs.Prelude.{◌≡◌, ◌≢◌, ◌<◌, ◌≤◌, ℕ, true, Option, None, Err, length};
ghost use Rattle.brick_state.specs.States.{group_at, live};
ghost use Rattle.brick_store.specs.Blocks.{IsServed};
ghost use Rattle.frame_store.specs.Layouts.{shape_of};
ghost use Rattle.fab_base.specs.Layouts.{most_groups};
ghost use Rattle.protocol.specs.Nodes.{Node, full_at};
ghost use Rattle.messages.specs.declared.packets.Message.TheVariants as message;
ghost use Rattle.messages.specs.declared.replies.Reply as told;
ghost use Rattle.replica.specs.Parts.{IsPartsOf};
ghost use Rattle.replica.specs.Plans.{planned, is_shared, IsChange};
ghost use Rattle.replica.specs.Reactions.{part_at, IsReacted, IsStep};
ghost use Rattle.replica.specs.Handling.{Handles, KeepsNext, Runs, end_of, answered, me_of, seen_as, unanswered};
ghost use Rattle.replica.specs.Calls.{part_append, message_append};

use crate::courses::{Course, take_course};
use crate::faults::ReplicaFault;
use crate::members::{decide, newest_under};
use crate::plans::Plan;
use crate::views::{on_learn, on_synced};
use crate::votes::vote;
use brick_store::{BrickStore, StoreFault};
use fab_base::BrickId;
use fab_disk::Disk;
use layout::Layout;
use messages::{Call, Message, Reply, Request};
use std::alloc::Global;

/// The reply where the store refused a change.
fn refused(fault: StoreFault) -> Result<Option<Reply>, ReplicaFault>
    ensures { (reply : Option told.Reply) → result ≡ answered reply (Err fault) }
{
    match fault {
        StoreFault::Full { live } => Ok(Some(Reply::Full { live })),
        StoreFault::Disk => Err(ReplicaFault::Disk),
        StoreFault::Halted => Err(ReplicaFault::Halted),
        StoreFault::NoMemory => Err(ReplicaFault::NoMemory),
    }
}

/// The reply, if there is one, once the store answered the change that it promises.
pub(crate) fn answered(
    reply: Option<Reply>,
    answer: Result<(), StoreFault>,
) -> Result<Option<Reply>, ReplicaFault>
    ensures { result ≡ answered reply answer }
{
    match answer {
        Ok(()) => Ok(reply),
        Err(fault) => refused(fault),
    }
}

/// Keeps what is planned, and then replies.
fn carry_out<D: Disk>(
    store: &mut BrickStore<D>,
    call: Call,
    plan: Plan,
) -> Result<Option<Reply>, ReplicaFault>
    requires group { call.group.0 < most_groups }
    requires view { IsServed (group_at store.old.state call.group.0) call.view.0 }
    requires runs { Runs D.Disk store.old }
    requires change { IsChange store.old.shape.block (is_shared plan) (part_at store.old.shape.block store.old.state call) plan }
    ensures handles { Handles D.Disk (IsReacted store.old.shape.block call store.old.state
        (planned (full_at store.old.shape.records (live store.old.state)) (part_at store.old.shape.block store.old.state call) plan))
        store.old store.new result }
    ensures change { KeepsNext D.Disk
        (part_append (is_shared plan) (part_at store.old.shape.block store.old.state call)
        (planned (full_at store.old.shape.records (live store.old.state)) (part_at store.old.shape.block store.old.state call) plan).replica)
        (IsReacted store.old.shape.block call store.old.state
        (planned (full_at store.old.shape.records (live store.old.state)) (part_at store.old.shape.block store.old.state call) plan))
        store.old store.new (end_of result) }
{
    let (group, view, stripe) = (call.group, call.view, call.stripe);
    match plan {
        Plan::Ignore => Ok(None),
        Plan::Tell(reply) => Ok(Some(reply)),
        Plan::Promise(stamp, reply) => {
            answered(Some(reply), store.set_order(group, view, stripe, stamp))
        }
        Plan::Store(stamp, block) => {
            let answer = store.add_version(group, view, stripe, stamp, block);
            answered(Some(Reply::Stored), answer)
        }
        Plan::Collect(stamp) => answered(None, store.collect(group, view, stripe, stamp)),
    }
}

/// The answer that carries a reply to its call.
fn answer(
    call: Call,
    reply: Result<Option<Reply>, ReplicaFault>,
) -> Result<Option<Message>, ReplicaFault>
    ensures { result ≡ seen_as (λ r. message.Reply call r) reply }
{
    match reply {
        Ok(Some(reply)) => Ok(Some(Message::Reply(call, reply))),
        Ok(None) => Ok(None),
        Err(fault) => Err(fault),
    }
}

/// Does what a brick of the machine does with a request of a store that runs.
fn on_request<D: Disk>(
    alloc: Global,
    store: &mut BrickStore<D>,
    layout: &Layout,
    from: BrickId,
    call: Call,
    request: &Request,
) -> Result<Option<Message>, ReplicaFault>
    requires shape { store.old.shape ≡ shape_of store.old.shape.me layout.now.block layout.now.records }
    requires runs { Runs D.Disk store.old }
    ensures handles { Handles D.Disk (IsStep layout.now (me_of store.old) from (message.Request call request.now) store.old.state) store.old store.new result }
    ensures change { (node : Node) → IsPartsOf layout.now store.old.state node → KeepsNext D.Disk
        (message_append layout.now (me_of store.old) from node (message.Request call request.now))
        (IsStep layout.now (me_of store.old) from (message.Request call request.now) store.old.state) store.old store.new (end_of result) }
{
    // A member answers whoever asks. The call only tells limits: a list that may keep a group has a member.
    let _ = (from, layout.records());
    let course = take_course(alloc, store, layout, call, request)?;
    match course {
        Course::Void => Ok(None),
        Course::Tell(reply) => Ok(Some(Message::Reply(call, reply))),
        Course::TellOld(bound) => {
            let part = store.state(call.group, call.view, call.stripe);
            let found = newest_under(alloc, &part, bound)?;
            Ok(Some(Message::Reply(call, Reply::Old { found })))
        }
        Course::Serve(member) => {
            let part = store.state(call.group, call.view, call.stripe);
            let plan = decide(alloc, member, &part, request)?;
            answer(call, carry_out(store, call, plan))
        }
        Course::Vote(learnt, ballot, asks) => {
            answer(call, vote(alloc, store, learnt, call, ballot, asks))
        }
    }
}

/// No answer to a message, once what it tells is kept.
fn no_answer(kept: Result<(), ReplicaFault>) -> Result<Option<Message>, ReplicaFault>
    ensures { result ≡ unanswered kept }
{
    match kept {
        Ok(()) => Ok(None),
        Err(fault) => Err(fault),
    }
}

/// Does what a brick of the machine does with a message as a member of a group: its answer to the sender, if there is one. A message that
/// is no request has none, nor has a void request.
///
/// A request of a view that the brick serves no more, since it has learnt a later one or has accepted a list to follow it, is told so. Asked what it keeps in such
/// a view, it tells its newest version there, or that it has dropped them. On a ballot for the successor of the view that it has learnt the brick votes as an
/// acceptor of the Synod. A later view than that it learns: what it promised and accepted for another successor is forgotten then, and what it kept of the group
/// in the views before the new one's predecessor is dropped. Once it hears that all stripes are kept in the view that it has learnt, it drops what it kept in the
/// view before.
///
/// A Collect of the learnt view drops the versions below the one that it names, where the member has that one, and has no reply. A block that a dropped version
/// shares with one that stays is kept. Where the member lacks the version, or has none below it, nothing is dropped.
///
/// The answer is made only once what it promises is kept. A message that changes nothing makes no call of the disk; one that changes the
/// order stamp makes four of `write_at` and `sync`, one that stores a version with its block five, one that stores a version with the block of
/// the newest one four, one that drops versions, changes ballots, or teaches a view or that all stripes are kept in it four, and each seven more where the list of
/// frames is rewritten first, for want of room.
///
/// # Errors
/// [`ReplicaFault::Halted`]: an earlier call of the store answered Disk. [`ReplicaFault::Disk`]: the disk failed, and the store is
/// halted. [`ReplicaFault::NoMemory`]: memory was refused, before the disk changed.
pub fn handle<D: Disk>(
    alloc: Global,
    store: &mut BrickStore<D>,
    layout: &Layout,
    from: BrickId,
    message: &Message,
) -> Result<Option<Message>, ReplicaFault>
    requires shape { store.old.shape ≡ shape_of store.old.shape.me layout.now.block layout.now.records }
    ensures handles { Handles D.Disk (IsStep layout.now (me_of store.old) from message.now store.old.state) store.old store.new result }
    // At each moment each image opens as the state before, or as what the message makes the store keep. What is appended is what keeps
    // what the message makes of the machine's brick.
    ensures change { (node : Node) → IsPartsOf layout.now store.old.state node → KeepsNext D.Disk
        (message_append layout.now (me_of store.old) from node message.now)
        (IsStep layout.now (me_of store.old) from message.now store.old.state) store.old store.new (end_of result) }
{
    if store.is_halted() {
        return Err(ReplicaFault::Halted);
    }
    match message {
        Message::Request(call, request) => on_request(alloc, store, layout, from, *call, request),
        Message::Learn { group, view } => no_answer(on_learn(store, layout, *group, view.get())),
        Message::Synced { group, view } => no_answer(on_synced(store, layout, *group, *view)),
        _ => Ok(None),
    }
}
