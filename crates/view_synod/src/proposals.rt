//! A proposal of a view's successor, and what it sends.

ghost use Rattle.std.specs.Prelude.{◌≡◌, IfOk, length};
ghost use Rattle.quorum.specs.Quorums.{IsWithinLimits};
ghost use Rattle.protocol.specs.Coordinators.{has_seat};
ghost use Rattle.protocol.specs.Proposals.{ballot_call};

use fab_base::{Ballot, CallId, GroupId, Members, NoMem, StripeNo, View, ViewNo};
use messages::{Call, Message, Messages, Request};
use protocol::Counted;
use quorum::Policy;
use std::alloc::Global;
use std::marker::Model;

/// A list of members that a brick proposes as a view's successor, under one ballot. It prepares, and then asks the members of the view to accept a list.
///
/// A clause sees how many bricks the disk has, and the proposal.
#[derive(Drop)]
pub struct Proposal {
    pub(crate) bricks: u16,
    pub(crate) policy: Policy,
    pub(crate) view: View,
    pub(crate) ballot: Ballot,
    pub(crate) own: Members,
    // The list that the members are asked to accept; none while it prepares.
    pub(crate) asks: Option<Members>,
    pub(crate) call: Call,
    pub(crate) counted: Vec<Counted>,
}

impl Model for Proposal {
    ghost use Rattle.std.specs.Prelude.{◌≡◌, length};
    ghost use Rattle.view_synod.specs.Proposers.{Proposing, IsUnderWay};

    ghost Value = { Proposing };

    ghost view = { λ p. record {
      bricks = p.bricks;
      state = record { m = p.policy.m; view = p.view; ballot = p.ballot; own = p.own; asks = p.asks; call = p.call; counted = p.counted.items };
    } };

    ghost invariant = { λ p. IsUnderWay p.bricks
        (record { m = p.policy.m; view = p.view; ballot = p.ballot; own = p.own; asks = p.asks; call = p.call; counted = p.counted.items })
        × (p.policy.n ≡ length p.view.members) };
}

/// The call of a proposal's first phase.
fn ballot_call(group: GroupId, view: ViewNo, call: CallId) -> Call
    ensures { result ≡ ballot_call group view call }
{
    Call {
        boot: call.boot,
        seq: call.seq,
        phase: 1,
        group,
        view,
        stripe: StripeNo(0),
    }
}

/// Whether a seat is among those of the replies.
pub(crate) fn has_seat(seat: u8, counted: &[Counted]) -> bool
    ensures { result ≡ has_seat seat counted.now }
{
    for reply in counted {
        if reply.seat == seat {
            return true;
        }
    }
    false
}

/// A copy of these replies.
fn copy_counted(alloc: Global, counted: &[Counted]) -> Result<Vec<Counted>, NoMem>
    ensures { IfOk result (λ made. made.items ≡ counted.now) }
{
    let mut made = Vec::new(alloc);
    for reply in counted {
        made.push(Counted {
            seat: reply.seat,
            brick: reply.brick,
            reply: reply.reply.copy(alloc)?,
        })?;
    }
    Ok(made)
}

/// An equal list, if there is one.
fn copy_members(members: &Option<Members>) -> Option<Members>
    ensures { result ≡ members.now }
{
    match members {
        Some(members) => Some(members.copy()),
        None => None,
    }
}

/// The policy of these members, within the limits of a quorum.
fn policy_of(m: u8, members: &Members) -> Policy
    requires { IsWithinLimits m (length members.now) }
    ensures m { result.m ≡ m }
    ensures n { result.n ≡ length members.now }
{
    match Policy::new(m, members.as_slice().len() as u8) {
        Some(policy) => policy,
        None => unreachable!(),
    }
}

impl Proposal {
    ghost use Rattle.std.specs.Prelude.{◌≡◌, ◌-◌, ◌<◌, ◌≤◌, ◌^◌, [], true, IfOk, length, vec_capacity};
    ghost use Rattle.quorum.specs.Quorums.{IsWithinLimits};
    ghost use Rattle.quorum.specs.Memberships.{is_membership};
    ghost use Rattle.protocol.specs.Proposals.{begun_proposal, ballot_request};
    ghost use Rattle.view_synod.specs.Proposers.{ballot_messages};

    /// A proposal of these members under a ballot, as it begins: they may keep the group, the members of the view are within the limits of a quorum of
    /// `m` data blocks, and the view has a successor.
    pub(crate) fn begin(
        alloc: Global,
        bricks: u16,
        m: u8,
        group: GroupId,
        view: View,
        call: CallId,
        ballot: Ballot,
        members: Members,
    ) -> Proposal
        requires limits { IsWithinLimits m (length view.members) }
        requires number { view.number.0 < 2 ^ 32 - 1 }
        requires may_keep { is_membership m bricks members ≡ true }
        ensures { result ≡ record { bricks = bricks; state = begun_proposal m group view call ballot members } }
    {
        let policy = policy_of(m, &view.members);
        let call = ballot_call(group, view.number, call);
        Proposal {
            bricks,
            policy,
            view,
            ballot,
            own: members,
            asks: None,
            call,
            counted: Vec::new(alloc),
        }
    }

    /// An equal value.
    pub fn copy(&self, alloc: Global) -> Result<Proposal, NoMem>
        ensures { IfOk result (λ made. made ≡ self.now) }
    {
        let counted = copy_counted(alloc, self.counted.as_slice())?;
        Ok(Proposal {
            bricks: self.bricks,
            policy: self.policy,
            view: self.view.copy(),
            ballot: self.ballot,
            own: self.own.copy(),
            asks: copy_members(&self.asks),
            call: self.call,
            counted,
        })
    }

    /// What the phase asks of each member.
    fn request(&self) -> Request
        ensures { result ≡ ballot_request self.now.state }
    {
        match &self.asks {
            None => Request::Prepare {
                ballot: self.ballot,
            },
            Some(members) => Request::Accept {
                ballot: self.ballot,
                members: members.copy(),
            },
        }
    }

    /// Room for the messages of a phase.
    pub(crate) fn room(&self, alloc: Global) -> Result<Messages, NoMem>
        ensures empty { IfOk result (λ room. room.items ≡ []) }
        ensures room { IfOk result (λ room. length self.now.state.view.members ≤ vec_capacity room) }
    {
        Ok(Vec::with_capacity(alloc, self.view.members.as_slice().len())?)
    }

    /// The messages of the phase, in the order of seats, to each member without a counted reply, in room that was made for them.
    pub(crate) fn put_messages(&self, mut room: Messages) -> Messages
        requires empty { room.items ≡ [] }
        requires room { length self.now.state.view.members ≤ vec_capacity room }
        ensures { result.items ≡ ballot_messages self.now.state }
    {
        for (seat, member) in self.view.members.as_slice().iter().enumerate() {
            if has_seat(seat as u8, self.counted.as_slice()) {
                continue;
            }
            room.push_reserved((*member, Message::Request(self.call, self.request())));
        }
        room
    }
}
