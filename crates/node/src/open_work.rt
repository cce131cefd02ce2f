//! What a brick has under way: the operations that it coordinates, and its proposal.

use crate::open_calls::OpenCalls;
use crate::outs::Outs;
use crate::proposals::{Heard, Proposals};
use fab_base::{Answer, BrickId, GroupId, NoMem, Refusal, View, ViewNo};
use layout::{Group, Layout};
use messages::{Call, Message, Messages, Packet, Reply};
use quorum::is_membership;
use std::alloc::Global;

/// The operations that a brick has open, and its proposals.
#[derive(Drop)]
pub struct OpenWork {
    pub(crate) calls: OpenCalls,
    pub(crate) proposals: Proposals,
}

/// What a reply that counts, and tells a later view, comes to.
#[derive(Drop)]
pub enum Turn {
    /// An operation has counted it, and waits for more.
    Counted,
    /// An operation is to end with this answer.
    Ends(Answer),
    /// The proposal is to go on so.
    Goes(Heard),
}

impl OpenWork {
    ghost use Rattle.std.specs.Prelude.{◌≡◌, ◌+◌, ◌-◌, ◌<◌, ◌≤◌, ◌^◌, ℕ, true, None, Some, IfOk, OnErr, length, vec_len};
    ghost use Rattle.std.specs.BTreeMap.{get};
    ghost use Rattle.std.specs.Ordering.{nat_cmp};
    ghost use Rattle.fab_base.specs.declared.identities.BrickId.{BrickId};
    ghost use Rattle.fab_base.specs.Layouts as layouts;
    ghost use Rattle.messages.specs.declared.calls.Call.{Call};
    ghost use Rattle.messages.specs.declared.packets.Message.TheVariants as told;
    ghost use Rattle.messages.specs.declared.replies.Reply.{Reply};
    ghost use Rattle.quorum.specs.Quorums.{IsWithinLimits};
    ghost use Rattle.stripe_code.specs.Codes.{coding};
    ghost use Rattle.protocol.specs.Nodes.{proposal_refusal_in, proposed_in, known_after, replied_at, ticked, with_known, with_round};
    ghost use Rattle.coord_phase.specs.Messages.{packets_from};
    ghost use Rattle.node.specs.declared.open_work.OpenWork.{OpenWork};
    ghost use Rattle.node.specs.States.{KeptParts, state_in, fresh_node, IsWorkOf, IsSameWork, StepsAs};
    ghost use Rattle.node.specs.Moves.{counts_at, step_on, IsTurn, OpenIfEnds, IsMoved};

    /// Nothing is under way, and nothing was since this opening of the store.
    pub(crate) fn new(alloc: Global, me: BrickId, boot: u32) -> OpenWork
        ensures me { result.calls.me ≡ me }
        ensures boot { result.calls.stamps.boot ≡ boot }
        ensures state { (kept : KeptParts) → state_in kept result ≡ fresh_node boot kept }
        ensures of { (layout : layouts.Layout) → IsWorkOf layout result }
    {
        OpenWork {
            calls: OpenCalls::new(alloc, me, boot),
            proposals: Proposals::new(),
        }
    }

    /// Why the brick does not begin to propose a successor of the view of this number, which it has learnt of a group, the first reason there is: it has a
    /// proposal under way; or no greater round, no later view or no later call has a number.
    #[tactic(auto, unfolding(crate::specs::States::state_with))]
    pub(crate) fn proposal_refusal(&self, view: ViewNo) -> Option<Refusal>
        ensures value { (kept : KeptParts) (group : layouts.Group) (number : ℕ) → (kept.learnt number).view.number.0 ≡ view.0
            → result ≡ proposal_refusal_in (state_in kept self.now) number (Some group) }
        ensures round { result ≡ None → self.now.proposals.rounds < 2 ^ 32 - 1 }
        ensures number { result ≡ None → view.0 < 2 ^ 32 - 1 }
        ensures seq { result ≡ None → self.now.calls.seq + 1 < 2 ^ 64 }
    {
        if self.proposals.is_busy() {
            Some(Refusal::Busy)
        } else if self.proposals.is_spent() || view.0 == u32::MAX || self.calls.is_spent() {
            Some(Refusal::Spent)
        } else {
            None
        }
    }

    /// Begins a proposal that is not refused, of these members as the successor of the view that the brick has learnt of a group. A list that may not keep
    /// the group ends it at once, and uses up neither a call nor a round.
    ///
    /// # Errors
    ///
    /// `NoMemory` where no memory was left; then nothing has changed.
    pub(crate) fn propose(
        &mut self,
        alloc: Global,
        layout: &Layout,
        kept: &Group,
        group: GroupId,
        view: View,
        members: &[BrickId],
    ) -> Result<Outs, NoMem>
        requires round { self.old.proposals.rounds < 2 ^ 32 - 1 }
        requires number { view.number.0 < 2 ^ 32 - 1 }
        requires seq { self.old.calls.seq + 1 < 2 ^ 64 }
        requires limits { IsWithinLimits kept.now.m (length view.members) }
        ensures step { (parts : KeptParts) → (parts.learnt group.0).view ≡ view → IfOk result (StepsAs self.old.calls.me (state_in parts self.new)
            (proposed_in (coding layout.now) self.old.calls.me (state_in parts self.old) group members.now (Some kept.now))) }
        ensures few { IfOk result (λ outs. length outs.messages ≤ 32) }
        ensures err { OnErr result (self.new ≡ self.old) }
        ensures same { IsSameWork layout.now self.old self.new }
    {
        let (me, call) = (self.calls.me(), self.calls.next_call());
        let begins = is_membership(kept.m(), layout.bricks(), members);
        let outs = self
            .proposals
            .propose(alloc, me, layout, kept, group, view, call, members)?;
        self.calls.made_call(begins);
        Ok(outs)
    }

    /// Handles a reply that teaches no view, at this time of the brick's clock: the open operation of its call, or else the proposal, counts it, or leaves
    /// it out.
    ///
    /// # Errors
    ///
    /// `NoMemory` where no memory was left; then what the machine sees has not changed.
    pub(crate) fn on_reply(
        &mut self,
        alloc: Global,
        layout: &Layout,
        now: u64,
        packet: &Packet,
        call: Call,
        reply: &Reply,
    ) -> Result<Outs, NoMem>
        requires reply { packet.now.message ≡ told.Reply call reply.now }
        requires of { IsWorkOf layout.now self.old }
        ensures step { (kept : KeptParts) → IfOk result (StepsAs self.old.calls.me (state_in kept self.new)
            (replied_at (coding layout.now) self.old.calls.me now packet.now.from (with_round (state_in kept self.old) reply.now) call reply.now
            ((state_in kept self.old).calls call.seq))) }
        ensures few { IfOk result (λ outs. length outs.messages ≤ 64) }
        ensures err { OnErr result ((kept : KeptParts) → state_in kept self.new ≡ state_in kept self.old) }
        ensures same { IsSameWork layout.now self.old self.new }
    {
        if self.calls.is_open(call.seq) {
            let outs = self.calls.on_reply(alloc, now, packet, call, reply)?;
            self.proposals.heard(&packet.message);
            return Ok(outs);
        }
        let heard = self
            .proposals
            .hear(alloc, layout, packet.from, call, &packet.message)?;
        self.calls.heard(reply);
        self.proposals.heard(&packet.message);
        Ok(self.proposals.go_on(heard))
    }

    /// Takes note of the time and the round of a ballot that a reply makes known.
    pub(crate) fn heard(&mut self, message: &Message, reply: &Reply)
        requires reply { (call : Call) × (message.now ≡ told.Reply call reply.now) }
        ensures state { (kept : KeptParts) → state_in kept self.new
            ≡ with_known (with_round (state_in kept self.old) reply.now) (known_after self.old.calls.stamps.known reply.now) }
        ensures operations { self.new.calls.operations ≡ self.old.calls.operations }
        ensures seq { self.new.calls.seq ≡ self.old.calls.seq }
        ensures same { (layout : layouts.Layout) → IsSameWork layout self.old self.new }
    {
        self.calls.heard(reply);
        self.proposals.heard(message);
    }

    /// Whether a reply counts in the open operation of its call, or, if there is none, in the proposal.
    pub(crate) fn counts(&self, call: Call, packet: &Packet) -> bool
        ensures { result ≡ counts_at self.now call.seq packet.now.from packet.now.message }
    {
        if self.calls.is_open(call.seq) {
            self.calls.counts(call.seq, packet.from, &packet.message)
        } else {
            self.proposals.counts(packet.from, &packet.message)
        }
    }

    /// What a reply that counts, and tells this later view with its members, comes to. Nothing has changed yet, but that an operation that waits for more has
    /// counted it.
    ///
    /// # Errors
    ///
    /// `NoMemory` where no memory was left; then what the machine sees has not changed.
    pub(crate) fn hear_moved(
        &mut self,
        alloc: Global,
        layout: &Layout,
        packet: &Packet,
        call: Call,
        reply: &Reply,
        view: ViewNo,
    ) -> Result<Turn, NoMem>
        requires reply { packet.now.message ≡ told.Reply call reply.now }
        requires moved { IsMoved reply.now view }
        requires counts { counts_at self.old call.seq packet.now.from packet.now.message ≡ true }
        requires of { IsWorkOf layout.now self.old }
        ensures turn { IfOk result (λ turn. IsTurn layout.now packet.now.from call reply.now self.old turn self.new) }
        ensures err { OnErr result ((kept : KeptParts) → state_in kept self.new ≡ state_in kept self.old) }
        ensures same { IsSameWork layout.now self.old self.new }
    {
        let (seq, from) = (call.seq, packet.from);
        if !self.calls.is_open(seq) {
            let heard = self
                .proposals
                .hear(alloc, layout, from, call, &packet.message)?;
            return Ok(Turn::Goes(heard));
        }
        if let Some(answer) = self.calls.ended_by(seq, from, view) {
            return Ok(Turn::Ends(answer));
        }
        self.calls.count(seq, from, &packet.message)?;
        Ok(Turn::Counted)
    }

    /// Takes back what was done already on a reply to the call of this number: nothing has changed then.
    pub(crate) fn take_back(&mut self, seq: u64, turn: &Turn)
        ensures state { (layout : layouts.Layout) (from : BrickId) (call : Call) (reply : Reply) (before : OpenWork) → call.seq ≡ seq
            → IsTurn layout from call reply before turn.now self.old → (kept : KeptParts) → state_in kept self.new ≡ state_in kept before }
        ensures same { (layout : layouts.Layout) → IsSameWork layout self.old self.new }
    {
        if let Turn::Counted = turn {
            self.calls.take_back(seq);
        }
    }

    /// Does what is still to be done on a reply to the call of this number.
    pub(crate) fn finish(&mut self, alloc: Global, seq: u64, turn: Turn) -> Outs
        requires is_open { OpenIfEnds turn (get nat_cmp self.old.calls.operations seq) }
        ensures step { (layout : layouts.Layout) (now : ℕ) (from : BrickId) (call : Call) (reply : Reply) (before : OpenWork) → call.seq ≡ seq
            → IsTurn layout from call reply before turn self.old → (kept : KeptParts)
            → StepsAs before.calls.me (state_in kept self.new) (step_on layout now from call reply before kept) result }
        ensures few { length result.messages ≤ 64 }
        ensures same { (layout : layouts.Layout) (from : BrickId) (call : Call) (reply : Reply) (before : OpenWork)
            → IsTurn layout from call reply before turn self.old → IsSameWork layout self.old self.new }
    {
        match turn {
            Turn::Counted => Outs::nothing(alloc),
            Turn::Ends(answer) => self.calls.close(alloc, seq, answer),
            Turn::Goes(heard) => self.proposals.go_on(heard),
        }
    }

    /// At a tick of the brick's clock each open operation, in the order of beginning, sends its present phase again to each member without a reply that
    /// counts, and then the proposal. Each message of a later view than view 1 goes right after one that teaches its receiver that view.
    pub(crate) fn on_tick(&self, alloc: Global) -> Result<Messages, NoMem>
        ensures packets { IfOk result (λ messages. (layout : layouts.Layout) (kept : KeptParts) → IsWorkOf layout self.now
            → packets_from self.now.calls.me messages.items ≡ ticked (coding layout) self.now.calls.me (state_in kept self.now)) }
        ensures few { IfOk result (λ messages. vec_len messages ≤ 4160) }
    {
        let mut messages = self.calls.on_tick(alloc)?;
        let mut last = self.proposals.on_tick(alloc)?;
        messages.append(&mut last)?;
        Ok(messages)
    }
}
