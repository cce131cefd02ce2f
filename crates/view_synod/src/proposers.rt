//! The proposer of a view's successor.

ghost use Rattle.std.specs.Prelude.{◌≡◌, if◌then◌else◌, Some, None, true, IfOk, IfSome};
ghost use Rattle.quorum.specs.Memberships.{is_membership};

use crate::answers::{ViewAnswer, ViewNext};
use crate::proposals::Proposal;
use fab_base::{Ballot, BrickId, CallId, GroupId, Members, NoMem, View};
use messages::Message;
use quorum::is_membership;
use std::alloc::Global;
use std::marker::Model;

/// The proposer of one list: it has its proposal until that has ended.
///
/// A clause sees the proposal, if it has not ended.
#[derive(Drop)]
pub struct Proposer {
    alloc: Global,
    proposal: Option<Proposal>,
}

impl Model for Proposer {
    ghost use Rattle.std.specs.Prelude.{Option};
    ghost use Rattle.view_synod.specs.Proposers.{Proposing};

    ghost Value = { Option Proposing };

    ghost view = { λ proposer. proposer.proposal };
}

/// These members, where they may keep a group of `m` data blocks on a disk of `bricks` bricks.
#[tactic(auto, using(quorum::proofs::MembershipSizes::membership_is_short))]
fn list_of(m: u8, bricks: u16, members: &[BrickId]) -> Option<Members>
    ensures value { result ≡ (if is_membership m bricks members.now then Some members.now else None) }
    ensures may_keep { IfSome result (λ list. is_membership m bricks list ≡ true) }
{
    if !is_membership(m, bricks, members) {
        return None;
    }
    Members::new(members)
}

/// An equal proposal, if there is one.
fn copy_proposal(alloc: Global, proposal: &Option<Proposal>) -> Result<Option<Proposal>, NoMem>
    ensures { IfOk result (λ made. made ≡ proposal.now) }
{
    match proposal {
        None => Ok(None),
        Some(proposal) => Ok(Some(proposal.copy(alloc)?)),
    }
}

impl Proposer {
    ghost use Rattle.std.specs.Prelude.{◌≡◌, ◌-◌, ◌<◌, ◌^◌, IfOk, OnErr, length};
    ghost use Rattle.quorum.specs.Quorums.{IsWithinLimits};
    ghost use Rattle.view_synod.specs.Evidence.{HasEvidence};
    ghost use Rattle.view_synod.specs.Proposers.{counts, voting_in, GoesOn, started, StartsAs, SendsAgain};

    /// Proposes these members as the successor of a view of a group, of `m` data blocks, on a disk of `bricks` bricks, under this ballot. The members of the
    /// view are within the limits of a quorum, and its successor has a number.
    ///
    /// A list that may not keep the group is answered BadMembers, and nothing is sent.
    ///
    /// # Errors
    ///
    /// `NoMemory` where no memory was left.
    pub fn start(
        alloc: Global,
        bricks: u16,
        m: u8,
        group: GroupId,
        view: View,
        call: CallId,
        ballot: Ballot,
        members: &[BrickId],
    ) -> Result<(Proposer, ViewNext), NoMem>
        requires limits { IsWithinLimits m (length view.members) }
        requires number { view.number.0 < 2 ^ 32 - 1 }
        ensures { IfOk result (λ begun. StartsAs (started bricks m group view call ballot members.now) begun.1 begun.0) }
    {
        let Some(members) = list_of(m, bricks, members) else {
            let ended = Proposer {
                alloc,
                proposal: None,
            };
            return Ok((ended, ViewNext::End(ViewAnswer::BadMembers)));
        };
        let proposal = Proposal::begin(alloc, bricks, m, group, view, call, ballot, members);
        let room = proposal.room(alloc)?;
        let messages = proposal.put_messages(room);
        let begun = Proposer {
            alloc,
            proposal: Some(proposal),
        };
        Ok((begun, ViewNext::Send(messages)))
    }

    /// An equal value.
    pub fn copy(&self, alloc: Global) -> Result<Proposer, NoMem>
        ensures { IfOk result (λ made. made ≡ self.now) }
    {
        let proposal = copy_proposal(alloc, &self.proposal)?;
        Ok(Proposer { alloc, proposal })
    }

    /// Whether a message counts: it is a reply to this very phase, answers it, and is its seat's first.
    pub fn counts(&self, from: BrickId, message: &Message) -> bool
        ensures { result ≡ counts self.now from.0 message.now }
    {
        match (&self.proposal, message) {
            (Some(proposal), Message::Reply(call, reply)) => {
                proposal.seat_to_count(from, *call, reply).is_some()
            }
            _ => false,
        }
    }

    /// What it does with a brick's message: it counts a reply, if it counts, and decides once a quorum counts.
    ///
    /// # Errors
    ///
    /// `NoMemory` where no memory was left; then nothing has changed.
    pub fn on_reply(&mut self, from: BrickId, message: &Message) -> Result<ViewNext, NoMem>
        ensures next { IfOk result (λ next. GoesOn self.old (voting_in self.old from message.now) next self.new) }
        ensures evidence { IfOk result (λ next. HasEvidence self.old from message.now next) }
        ensures err { OnErr result (self.new ≡ self.old) }
    {
        let Some(proposal) = &mut self.proposal else {
            return Ok(ViewNext::Wait);
        };
        let next = proposal.on_reply(self.alloc, from, message)?;
        if matches!(next, ViewNext::End(_)) {
            self.proposal = None;
        }
        Ok(next)
    }

    /// The messages of the phase again, to each member without a counted reply; none once it has ended.
    ///
    /// # Errors
    ///
    /// `NoMemory` where no memory was left.
    pub fn on_tick(&self) -> Result<ViewNext, NoMem>
        ensures { IfOk result (λ next. SendsAgain self.now next) }
    {
        match &self.proposal {
            None => Ok(ViewNext::Wait),
            Some(proposal) => {
                let room = proposal.room(self.alloc)?;
                Ok(ViewNext::Send(proposal.put_messages(room)))
            }
        }
    }
}
