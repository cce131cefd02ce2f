//! The proposal of a brick.

ghost use Rattle.std.specs.Prelude.{◌≡◌, ◌≤◌, Some, IfOk, length, vec_len};
ghost use Rattle.node.specs.Proposers.{about_in, EndsSo};

use crate::outs::Outs;
use crate::teaching::{learn_messages, teaching};
use fab_base::{BrickId, CallId, GroupId, NoMem, View};
use layout::{Group, Layout};
use messages::{Call, Message, Messages};
use protocol::Report;
use std::alloc::Global;
use view_synod::{Proposer, Rounds, ViewAnswer, ViewNext};

/// A proposal that a brick has under way: the group, the view whose successor it is about, and its proposer.
#[derive(Drop)]
pub struct OpenProposal {
    group: GroupId,
    view: View,
    proposer: Proposer,
    ghost about: { about_in proposer ≡ Some (group, view) },
}

/// A brick's proposals: the rounds of its ballots, and the proposal that it has under way, at most one.
#[derive(Drop)]
pub struct Proposals {
    rounds: Rounds,
    under_way: Option<OpenProposal>,
}

/// What a reply comes to for a proposal: what is sent and reported, and what is left of the proposal.
#[derive(Drop)]
pub struct Heard {
    outs: Outs,
    left: Option<OpenProposal>,
    ghost few: { length outs.messages ≤ 64 },
}

/// What is sent once a proposal about this view of a group ended so: where a list was decided, each of the disk's bricks is taught it.
fn end_messages(
    alloc: Global,
    layout: &Layout,
    group: GroupId,
    view: &View,
    answer: &ViewAnswer,
) -> Result<Messages, NoMem>
    ensures packets { IfOk result (λ messages. EndsSo layout.now group view.now answer.now messages.items) }
    ensures few { IfOk result (λ messages. vec_len messages ≤ 64) }
{
    let ViewAnswer::Decided {
        view: number,
        members,
    } = answer
    else {
        return Ok(Vec::new(alloc));
    };
    let decided = View {
        number: *number,
        members: members.copy(),
        prior: view.members.copy(),
    };
    learn_messages(alloc, group, &decided, layout.bricks())
}

impl OpenProposal {
    ghost use Rattle.std.specs.Prelude.{◌≡◌, ◌≤◌, Some, IfOk, length, vec_len};
    ghost use Rattle.fab_base.specs.declared.identities.BrickId.{BrickId};
    ghost use Rattle.protocol.specs.Nodes.{ballot_resent};
    ghost use Rattle.coord_phase.specs.Messages.{packets_from};
    ghost use Rattle.node.specs.Proposals.{IsUnderWayOn, HearsSo};
    ghost use Rattle.node.specs.Proposers.{proposal_of};

    /// An equal value.
    fn copy(&self, alloc: Global) -> Result<OpenProposal, NoMem>
        ensures { IfOk result (λ made. made ≡ self.now) }
    {
        Ok(OpenProposal {
            group: self.group,
            view: self.view.copy(),
            proposer: self.proposer.copy(alloc)?,
        })
    }

    /// What a brick's message comes to.
    fn hear(
        self,
        alloc: Global,
        layout: &Layout,
        from: BrickId,
        call: Call,
        message: &Message,
    ) -> Result<Heard, NoMem>
        requires on { IsUnderWayOn layout.now.bricks (Some self) }
        ensures hears { IfOk result (λ heard. HearsSo layout.now (Some self) from call message.now heard.outs heard.left) }
        ensures left { IfOk result (λ heard. IsUnderWayOn layout.now.bricks heard.left) }
    {
        let OpenProposal {
            group,
            view,
            mut proposer,
        } = self;
        // There is at most a message for each member, and these are few.
        let _ = view.members.as_slice();
        let outs = match proposer.on_reply(from, message)? {
            ViewNext::Wait => Outs::nothing(alloc),
            ViewNext::Send(messages) => Outs::sending(messages),
            ViewNext::End(answer) => {
                let messages = end_messages(alloc, layout, group, &view, &answer)?;
                let report = Report::View {
                    group,
                    call: Some(call),
                    answer,
                };
                return Ok(Heard {
                    outs: Outs::reporting(messages, report),
                    left: None,
                });
            }
        };
        Ok(Heard {
            outs,
            left: Some(OpenProposal {
                group,
                view,
                proposer,
            }),
        })
    }

    /// The messages of its phase again, to each member without a counted reply, each right after one that teaches its receiver the
    /// proposal's view, where that is later than view 1.
    fn on_tick(&self, alloc: Global) -> Result<Messages, NoMem>
        ensures packets { IfOk result (λ messages. (me : BrickId) → packets_from me messages.items ≡ ballot_resent me (proposal_of self.now.proposer)) }
        ensures few { IfOk result (λ messages. vec_len messages ≤ 64) }
    {
        // There is at most a message for each member, and these are few.
        let _ = self.view.members.as_slice();
        match self.proposer.on_tick()? {
            ViewNext::Send(messages) => teaching(alloc, self.group, &self.view, messages),
            ViewNext::Wait | ViewNext::End(_) => Ok(Vec::new(alloc)),
        }
    }
}

impl Proposals {
    ghost use Rattle.std.specs.Prelude.{◌≡◌, ◌-◌, ◌<◌, ◌≤◌, ◌^◌, ℕ, false, not, nat_lt, None, is_some, IfOk, OnErr, option_map, length, vec_len};
    ghost use Rattle.fab_base.specs.declared.identities.BrickId.{BrickId};
    ghost use Rattle.fab_base.specs.Layouts.{Layout};
    ghost use Rattle.quorum.specs.Quorums.{IsWithinLimits};
    ghost use Rattle.quorum.specs.Memberships.{is_membership};
    ghost use Rattle.stripe_code.specs.Codes.{coding};
    ghost use Rattle.view_synod.specs.Proposers.{counts};
    ghost use Rattle.messages.specs.declared.packets.Message.{Message};
    ghost use Rattle.protocol.specs.Proposals.{Proposal, round_heard};
    ghost use Rattle.protocol.specs.Nodes.{Node, next_call, proposed_in, ballot_resent};
    ghost use Rattle.coord_phase.specs.Messages.{packets_from};
    ghost use Rattle.node.specs.Proposals.{proposal_in, counts_in, IsUnderWayOn, AreProposalsOf, HearsSo, ProposesAs};

    /// The brick was just started: it has proposed nothing, and has heard of no round.
    pub(crate) fn new() -> Proposals
        ensures rounds { result.rounds ≡ 0 }
        ensures under_way { result.under_way ≡ None }
    {
        Proposals {
            rounds: Rounds::new(),
            under_way: None,
        }
    }

    /// The group whose successor is proposed, if the brick has a proposal under way.
    pub(crate) fn group(&self) -> Option<GroupId>
        ensures { result ≡ option_map (λ (p : Proposal). p.call.group) (proposal_in self.now.under_way) }
    {
        match &self.under_way {
            Some(open) => Some(open.group),
            None => None,
        }
    }

    /// Whether the brick has a proposal under way.
    pub(crate) fn is_busy(&self) -> bool
        ensures { result ≡ is_some (proposal_in self.now.under_way) }
    {
        self.under_way.is_some()
    }

    /// Whether no greater round is left for a ballot.
    pub(crate) fn is_spent(&self) -> bool
        ensures { result ≡ not (nat_lt self.now.rounds (2 ^ 32 - 1)) }
    {
        self.rounds.is_spent()
    }

    /// Takes note of a message that the brick heard: an Outbid tells a round, also where it does not count.
    pub(crate) fn heard(&mut self, message: &Message)
        ensures rounds { self.new.rounds ≡ round_heard self.old.rounds message.now }
        ensures under_way { self.new.under_way ≡ self.old.under_way }
    {
        self.rounds.heard(message);
    }

    /// Proposes these members as the successor of this view of a group, in this call. A list that may not keep the group ends the proposal
    /// at once, and uses up no round.
    ///
    /// # Errors
    ///
    /// `NoMemory` where no memory was left; then nothing has changed.
    pub(crate) fn propose(
        &mut self,
        alloc: Global,
        me: BrickId,
        layout: &Layout,
        kept: &Group,
        group: GroupId,
        view: View,
        call: CallId,
        members: &[BrickId],
    ) -> Result<Outs, NoMem>
        requires round { self.old.rounds < 2 ^ 32 - 1 }
        requires limits { IsWithinLimits kept.now.m (length view.members) }
        requires number { view.number.0 < 2 ^ 32 - 1 }
        ensures proposes { IfOk result (λ outs. (node : Node) → node.round ≡ self.old.rounds → node.proposal ≡ proposal_in self.old.under_way
            → (node.learnt group.0).view ≡ view → next_call node ≡ call
            → ProposesAs me node (proposed_in (coding layout.now) me node group members.now (Some kept.now)) (is_membership kept.now.m layout.now.bricks members.now)
            outs self.new) }
        ensures few { IfOk result (λ outs. length outs.messages ≤ 32) }
        ensures of { AreProposalsOf layout.now self.old → AreProposalsOf layout.now self.new }
        ensures err { OnErr result (self.new ≡ self.old) }
    {
        let (bricks, m) = (layout.bricks(), kept.m());
        let about = view.copy();
        let (proposer, next) = self
            .rounds
            .propose(alloc, me, bricks, m, group, about, call, members)?;
        match next {
            ViewNext::Send(messages) => {
                self.under_way = Some(OpenProposal {
                    group,
                    view,
                    proposer,
                });
                Ok(Outs::sending(messages))
            }
            ViewNext::End(answer) => {
                let report = Report::View {
                    group,
                    call: None,
                    answer,
                };
                Ok(Outs::reporting(Vec::new(alloc), report))
            }
            ViewNext::Wait => unreachable!(),
        }
    }

    /// Whether a message counts in the proposal: it is a reply to this very phase, answers it, and is its seat's first.
    pub(crate) fn counts(&self, from: BrickId, message: &Message) -> bool
        ensures { result ≡ counts_in self.now.under_way from message.now }
    {
        match &self.under_way {
            Some(open) => open.proposer.counts(from, message),
            None => false,
        }
    }

    /// What a brick's message comes to for the proposal. Nothing has changed yet.
    ///
    /// # Errors
    ///
    /// `NoMemory` where no memory was left.
    pub(crate) fn hear(
        &self,
        alloc: Global,
        layout: &Layout,
        from: BrickId,
        call: Call,
        message: &Message,
    ) -> Result<Heard, NoMem>
        requires of { AreProposalsOf layout.now self.now }
        ensures hears { IfOk result (λ heard. HearsSo layout.now self.now.under_way from call message.now heard.outs heard.left) }
        ensures left { IfOk result (λ heard. IsUnderWayOn layout.now.bricks heard.left) }
    {
        match &self.under_way {
            Some(open) => open.copy(alloc)?.hear(alloc, layout, from, call, message),
            None => Ok(Heard {
                outs: Outs::nothing(alloc),
                left: None,
            }),
        }
    }

    /// The proposal goes on as it came to. What is sent and reported.
    pub(crate) fn go_on(&mut self, heard: Heard) -> Outs
        ensures outs { result ≡ heard.outs }
        ensures few { length result.messages ≤ 64 }
        ensures under_way { self.new.under_way ≡ heard.left }
        ensures rounds { self.new.rounds ≡ self.old.rounds }
    {
        let Heard { outs, left } = heard;
        self.under_way = left;
        outs
    }

    /// The messages of the proposal's phase again, to each member without a counted reply, each right after one that teaches its receiver
    /// the proposal's view, where that is later than view 1.
    pub(crate) fn on_tick(&self, alloc: Global) -> Result<Messages, NoMem>
        ensures packets { IfOk result (λ messages. (me : BrickId) → packets_from me messages.items ≡ ballot_resent me (proposal_in self.now.under_way)) }
        ensures few { IfOk result (λ messages. vec_len messages ≤ 64) }
    {
        match &self.under_way {
            Some(open) => open.on_tick(alloc),
            None => Ok(Vec::new(alloc)),
        }
    }
}
