//! Votes on the successor of a view, and what is kept of them.

ghost use Rattle.std.specs.Prelude.{◌≡◌, ◌<◌, ◌≤◌, None, Some, IfOk, length};
ghost use Rattle.std.specs.Option.{ForSome};
ghost use Rattle.brick_state.specs.States.{group_at};
ghost use Rattle.brick_store.specs.Blocks.{learnt_of};
ghost use Rattle.protocol.specs.Ballots.{voting};
ghost use Rattle.view_synod.specs.Acceptors.{reply_of, vote_of, after_vote};
ghost use Rattle.replica.specs.Parts.{ballots_in};
ghost use Rattle.replica.specs.Reactions.{IsVoted};
ghost use Rattle.replica.specs.Handling.{Handles, KeepsNext, Runs, end_of};
ghost use Rattle.replica.specs.Calls.{same_ballot, same_members, same_promised, same_accepted, same_ballots, ballot_append};

use crate::courses::{Learnt, moved_to};
use crate::faults::ReplicaFault;
use crate::handling::answered;
use brick_store::BrickStore;
use fab_base::{Ballot, BrickId, GroupId, Members, NoMem};
use fab_disk::Disk;
use messages::{Call, Choice, Reply};
use std::alloc::Global;
use view_synod::{Acceptor, Vote};

/// Whether two ballots are the same.
fn is_same_ballot(left: Ballot, right: Ballot) -> bool
    ensures { result ≡ same_ballot left right }
{
    left.round == right.round && left.brick.0 == right.brick.0 && left.boot == right.boot
}

/// Whether two lists of members are the same.
fn is_same_list(left: &[BrickId], right: &[BrickId]) -> bool
    ensures { result ≡ same_members left.now right.now }
{
    match (left.split_first(), right.split_first()) {
        (None, None) => true,
        (Some((first, others)), Some((second, more))) => {
            first.0 == second.0 && is_same_list(others, more)
        }
        _ => false,
    }
}

/// Whether the same ballot is promised to, or none.
fn is_same_promise(left: Option<Ballot>, right: Option<Ballot>) -> bool
    ensures { result ≡ same_promised left right }
{
    match (left, right) {
        (None, None) => true,
        (Some(left), Some(right)) => is_same_ballot(left, right),
        _ => false,
    }
}

/// Whether the same list was accepted under the same ballot, or none was.
fn is_same_acceptance(left: &Option<(Ballot, Members)>, right: &Option<(Ballot, Members)>) -> bool
    ensures { result ≡ same_accepted left.now right.now }
{
    match (left, right) {
        (None, None) => true,
        (Some((ballot, members)), Some((other, more))) => {
            is_same_ballot(*ballot, *other) && is_same_list(members.as_slice(), more.as_slice())
        }
        _ => false,
    }
}

/// The brick as an acceptor, if a call asks it for the successor of the call's view.
#[tactic(auto, using(crate::proofs::Voting::kept_of_parts))]
fn acceptor_of<D: Disk>(store: &BrickStore<D>, learnt: Learnt, call: Call) -> Acceptor
    requires { call.group.0 < 64 }
    ensures { result ≡ record { of = call.view.0; learnt = learnt; kept = ballots_in store.now.state call.group.0 } }
{
    Acceptor::new(
        call.view,
        learnt.view,
        learnt.synced,
        store.promised(call.group),
        store.accepted(call.group),
    )
}

/// Whether a store keeps already what an acceptor keeps of ballots.
#[tactic(auto, using(crate::proofs::Voting::accepted_last))]
fn is_kept<D: Disk>(store: &BrickStore<D>, group: GroupId, acceptor: &Acceptor) -> bool
    requires { group.0 < 64 }
    ensures { result ≡ same_ballots (ballots_in store.now.state group.0) acceptor.now.kept }
{
    is_same_promise(store.promised(group), acceptor.promised())
        && is_same_acceptance(&store.accepted(group), &acceptor.accepted())
}

/// How a vote is replied.
fn reply_to(alloc: Global, vote: Vote) -> Result<Reply, NoMem>
    ensures { IfOk result (λ reply. reply ≡ reply_of vote) }
{
    Ok(match vote {
        Vote::Promise(accepted) => Reply::Promise {
            accepted: accepted.map(|(ballot, members)| Choice { ballot, members }),
        },
        Vote::Accepted => Reply::Accepted,
        Vote::Outbid(ballot) => Reply::Outbid { ballot },
        Vote::Moved(view) => moved_to(alloc, &view)?,
        Vote::NotSynced => Reply::NotSynced,
    })
}

/// Promises to a ballot for the successor of the view that the brick has learnt, unless it refuses it, and keeps what is new of that before it replies.
fn prepare<D: Disk>(
    alloc: Global,
    store: &mut BrickStore<D>,
    learnt: Learnt,
    call: Call,
    ballot: Ballot,
) -> Result<Option<Reply>, ReplicaFault>
    requires group { call.group.0 < 64 }
    requires learnt { learnt.view.number.0 ≡ learnt_of (group_at store.old.state call.group.0) }
    requires runs { Runs D.Disk store.old }
    ensures handles { Handles D.Disk (IsVoted call store.old.state (voting call.view.0 learnt (ballots_in store.old.state call.group.0) ballot None))
        store.old store.new result }
    ensures change { KeepsNext D.Disk
        (ballot_append (ballots_in store.old.state call.group.0) (voting call.view.0 learnt (ballots_in store.old.state call.group.0) ballot None).kept)
        (IsVoted call store.old.state (voting call.view.0 learnt (ballots_in store.old.state call.group.0) ballot None))
        store.old store.new (end_of result) }
{
    let number = learnt.view.number;
    let mut acceptor = acceptor_of(store, learnt, call);
    let vote = acceptor.prepare(ballot);
    let reply = reply_to(alloc, vote)?;
    if is_kept(store, call.group, &acceptor) {
        return Ok(Some(reply));
    }
    answered(Some(reply), store.set_ballot(call.group, number, ballot))
}

/// Accepts a list of members under a ballot, as the successor of the view that the brick has learnt, unless it refuses the ballot, and keeps what is new of that
/// before it replies.
fn accept<D: Disk>(
    alloc: Global,
    store: &mut BrickStore<D>,
    learnt: Learnt,
    call: Call,
    ballot: Ballot,
    members: Members,
) -> Result<Option<Reply>, ReplicaFault>
    requires group { call.group.0 < 64 }
    requires learnt { learnt.view.number.0 ≡ learnt_of (group_at store.old.state call.group.0) }
    requires some { 1 ≤ length members }
    requires runs { Runs D.Disk store.old }
    ensures handles { Handles D.Disk (IsVoted call store.old.state (voting call.view.0 learnt (ballots_in store.old.state call.group.0) ballot (Some members)))
        store.old store.new result }
    ensures change { KeepsNext D.Disk
        (ballot_append (ballots_in store.old.state call.group.0) (voting call.view.0 learnt (ballots_in store.old.state call.group.0) ballot (Some members)).kept)
        (IsVoted call store.old.state (voting call.view.0 learnt (ballots_in store.old.state call.group.0) ballot (Some members)))
        store.old store.new (end_of result) }
{
    let number = learnt.view.number;
    let mut acceptor = acceptor_of(store, learnt, call);
    let vote = acceptor.accept(ballot, members.copy());
    let reply = reply_to(alloc, vote)?;
    if is_kept(store, call.group, &acceptor) {
        return Ok(Some(reply));
    }
    answered(
        Some(reply),
        store.accept(call.group, number, ballot, members),
    )
}

/// Votes on a ballot for the successor of the view that the brick has learnt: it is asked to accept a list, or to promise.
pub(crate) fn vote<D: Disk>(
    alloc: Global,
    store: &mut BrickStore<D>,
    learnt: Learnt,
    call: Call,
    ballot: Ballot,
    asks: Option<Members>,
) -> Result<Option<Reply>, ReplicaFault>
    requires group { call.group.0 < 64 }
    requires learnt { learnt.view.number.0 ≡ learnt_of (group_at store.old.state call.group.0) }
    requires some { ForSome asks (λ members. 1 ≤ length members) }
    requires runs { Runs D.Disk store.old }
    ensures handles { Handles D.Disk (IsVoted call store.old.state (voting call.view.0 learnt (ballots_in store.old.state call.group.0) ballot asks))
        store.old store.new result }
    ensures change { KeepsNext D.Disk
        (ballot_append (ballots_in store.old.state call.group.0) (voting call.view.0 learnt (ballots_in store.old.state call.group.0) ballot asks).kept)
        (IsVoted call store.old.state (voting call.view.0 learnt (ballots_in store.old.state call.group.0) ballot asks))
        store.old store.new (end_of result) }
{
    match asks {
        None => prepare(alloc, store, learnt, call, ballot),
        Some(members) => accept(alloc, store, learnt, call, ballot, members),
    }
}
