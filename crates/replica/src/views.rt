//! Views that a brick is taught, and learns, and what it hears of them.

ghost use Rattle.std.specs.Prelude.{◌≡◌, ◌≢◌, ◌<◌, ◌≤◌, ℕ, true, None, Err, IsSome, length};
ghost use Rattle.brick_state.specs.States.{group_at};
ghost use Rattle.brick_store.specs.Blocks.{learnt_of};
ghost use Rattle.protocol.specs.Views.{is_view};
ghost use Rattle.messages.specs.declared.replies.Reply as told;
ghost use Rattle.messages.specs.declared.packets.Message as told_message;
ghost use Rattle.brick_store.specs.declared.faults.StoreFault.TheVariants as faults;
ghost use Rattle.replica.specs.Parts.{is_to_learn, is_to_note};
ghost use Rattle.replica.specs.Handling.{Runs, answered, seen_as, unanswered};
ghost use Rattle.replica.specs.Learning.{LearnsView, NotesSynced};

use crate::faults::ReplicaFault;
use brick_store::{BrickStore, StoreFault};
use fab_base::{BrickId, GroupId, View, ViewNo};
use fab_disk::Disk;
use layout::Layout;
use messages::{Message, Reply};
use quorum::is_membership;

/// Whether the lists of a view may keep a group of m data blocks on a disk of so many bricks.
fn is_view(m: u8, bricks: u16, view: &View) -> bool
    ensures { result ≡ is_view m bricks view.now }
{
    is_membership(m, bricks, view.members.as_slice())
        && is_membership(m, bricks, view.prior.as_slice())
}

/// Whether a brick is to learn a view that it is taught of a group: the layout has the group, its lists may keep that, and it is later than the learnt one.
fn is_to_learn<D: Disk>(store: &BrickStore<D>, layout: &Layout, group: GroupId, view: &View) -> bool
    ensures teaches { result ≡ is_to_learn layout.now store.now.state group.0 view.now }
    ensures few { result ≡ true → group.0 < 64 }
    ensures above { result ≡ true → learnt_of (group_at store.now.state group.0) < view.now.number.0 }
    ensures some { result ≡ true → (1 ≤ length view.now.members) × (1 ≤ length view.now.prior) }
{
    // The call only tells limits: a list that may keep a group has a member.
    let _ = layout.records();
    let Some(kept) = layout.group(group) else {
        return false;
    };
    is_view(kept.m(), layout.bricks(), view) && store.learnt(group).0 < view.number.0
}

/// How a call that learns a view, or that it is synced, ended, once the store answered.
fn taught(answer: Result<(), StoreFault>) -> Result<(), ReplicaFault>
    requires { (live : ℕ) → answer ≢ Err (faults.Full live) }
    ensures { (f : told.Reply → told_message.Message) → unanswered result ≡ seen_as f (answered None answer) }
{
    match answer {
        Ok(()) => Ok(()),
        Err(StoreFault::Disk) => Err(ReplicaFault::Disk),
        Err(StoreFault::Halted) => Err(ReplicaFault::Halted),
        Err(StoreFault::NoMemory) => Err(ReplicaFault::NoMemory),
        Err(StoreFault::Full { live: _ }) => unreachable!(),
    }
}

/// Learns a view that a running brick is taught of a group, if it is to.
pub(crate) fn on_learn<D: Disk>(
    store: &mut BrickStore<D>,
    layout: &Layout,
    group: GroupId,
    view: &View,
) -> Result<(), ReplicaFault>
    requires runs { Runs D.Disk store.old }
    ensures { (from : BrickId) → LearnsView D.Disk layout.now from group view.now store.old store.new result }
{
    if !is_to_learn(store, layout, group, view) {
        return Ok(());
    }
    taught(store.learn(group, view.copy()))
}

/// Learns a view that a brick is taught of a group, as it does on a message that teaches it: if the layout has the group, the lists of the view may keep that, and
/// the view is later than the learnt one. What the brick promised and accepted for another successor is forgotten then, and what it kept of the group in the views
/// before the new one's predecessor is dropped. It makes the calls of the disk that [`handle`] makes on such a message.
///
/// # Errors
/// [`ReplicaFault::Halted`]: an earlier call of the store answered Disk. [`ReplicaFault::Disk`]: the disk failed, and the store is
/// halted. [`ReplicaFault::NoMemory`]: memory was refused, before the disk changed.
pub fn learn<D: Disk>(
    store: &mut BrickStore<D>,
    layout: &Layout,
    group: GroupId,
    view: &View,
) -> Result<(), ReplicaFault>
    ensures { (from : BrickId) → LearnsView D.Disk layout.now from group view.now store.old store.new result }
{
    if store.is_halted() {
        return Err(ReplicaFault::Halted);
    }
    on_learn(store, layout, group, view)
}

/// Whether a brick is to note that all stripes of a group are kept in a view: the layout has the group, and the view is the learnt one, of which it does not know
/// so yet.
fn is_to_note<D: Disk>(store: &BrickStore<D>, layout: &Layout, group: GroupId, view: ViewNo) -> bool
    ensures notes { result ≡ is_to_note layout.now store.now.state group.0 view.0 }
    ensures few { result ≡ true → group.0 < 64 }
    ensures number { result ≡ true → view.0 ≡ learnt_of (group_at store.now.state group.0) }
    ensures known { result ≡ true → IsSome (group_at store.now.state group.0).known }
{
    let Some(_) = layout.group(group) else {
        return false;
    };
    match store.known_view(group) {
        Some((learnt, synced)) => view.0 == learnt.number.0 && !synced,
        None => false,
    }
}

/// Keeps that a running brick has heard that all stripes of a group are kept in a view, if it is to, and drops what it kept in the view before.
pub(crate) fn on_synced<D: Disk>(
    store: &mut BrickStore<D>,
    layout: &Layout,
    group: GroupId,
    view: ViewNo,
) -> Result<(), ReplicaFault>
    requires runs { Runs D.Disk store.old }
    ensures { (from : BrickId) → NotesSynced D.Disk layout.now from group view store.old store.new result }
{
    if !is_to_note(store, layout, group, view) {
        return Ok(());
    }
    taught(store.synced(group, view))
}
