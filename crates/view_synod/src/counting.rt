//! Which replies count in a proposal's phase, and what a quorum of them decides.

ghost use Rattle.std.specs.Prelude.{◌≡◌};
ghost use Rattle.protocol.specs.Coordinators.{call_same};

use crate::answers::{ViewAnswer, ViewNext};
use crate::choices::{greatest_choice, refused_by};
use crate::proposals::{Proposal, has_seat};
use fab_base::{Boxed, BrickId, Members, NoMem, ViewNo};
use messages::{Call, Choice, Lineage, Message, Messages, Reply};
use protocol::Counted;
use quorum::is_membership;
use std::alloc::Global;

/// Whether two calls are the same, phase and all.
fn is_same_call(left: Call, right: Call) -> bool
    ensures { result ≡ call_same left right }
{
    left == right
}

impl Proposal {
    ghost use Rattle.std.specs.Prelude.{◌≡◌, ◌<◌, ◌≤◌, [], not, nat_lt, true, None, Some, IfSome, IfOk, OnOk, OnErr, length, vec_capacity};
    ghost use Rattle.fab_base.specs.Layouts.{seat_in};
    ghost use Rattle.synod_laws.specs.Synods.{value_or};
    ghost use Rattle.quorum.specs.Memberships.{is_membership};
    ghost use Rattle.view_synod.specs.Evidence.{HasEvidence};
    ghost use Rattle.protocol.specs.Proposals.{ballot_quorum, may_be_choice, may_be_lineage, answers_ballot, seat_voting, with_voice, asking, greatest_choice, ballot_decided};
    ghost use Rattle.view_synod.specs.Proposers.{IsUnderWay, with_state, voting_on, left, GoesOn, Decides};

    /// The seat of a brick among the members of the view, the first if there are several. None where it is no member.
    fn seat_of(&self, brick: BrickId) -> Option<u8>
        ensures { result ≡ seat_in self.now.state.view.members brick.0 }
    {
        for (seat, member) in self.view.members.as_slice().iter().enumerate() {
            if member.0 == brick.0 {
                return Some(seat as u8);
            }
        }
        None
    }

    /// Whether these members may keep the group.
    fn may_keep(&self, members: &Members) -> bool
        ensures { result ≡ is_membership self.now.state.m self.now.bricks members.now }
    {
        is_membership(self.policy.m(), self.bricks, members.as_slice())
    }

    /// Whether the list that a promise tells, if it tells one, may keep the group.
    fn may_be_choice(&self, accepted: &Option<Choice>) -> bool
        ensures { result ≡ may_be_choice self.now.state.m self.now.bricks accepted.now }
    {
        match accepted {
            None => true,
            Some(choice) => self.may_keep(&choice.members),
        }
    }

    /// Whether the members of a later view, and of the one before it, may keep the group, if they are told.
    fn may_be_lineage(&self, lineage: &Option<Boxed<Lineage>>) -> bool
        ensures { result ≡ may_be_lineage self.now.state.m self.now.bricks lineage.now }
    {
        match lineage {
            None => true,
            Some(lineage) => {
                let lineage = lineage.get();
                self.may_keep(&lineage.members) && self.may_keep(&lineage.prior)
            }
        }
    }

    /// Whether a reply is of a kind that answers the phase.
    fn answers(&self, reply: &Reply) -> bool
        ensures { result ≡ answers_ballot self.now.state.m self.now.bricks self.now.state.asks reply.now }
    {
        match reply {
            Reply::Promise { accepted } => self.asks.is_none() && self.may_be_choice(accepted),
            Reply::Accepted => self.asks.is_some(),
            Reply::Moved { lineage, .. } => self.may_be_lineage(lineage),
            Reply::Outbid { .. } | Reply::NotSynced => true,
            _ => false,
        }
    }

    /// The seat at which a brick's reply counts: it is to this very phase, answers it, and is its seat's first.
    #[tactic(auto, unfolding(protocol::specs::Proposals::seat_voting))]
    pub(crate) fn seat_to_count(&self, from: BrickId, call: Call, reply: &Reply) -> Option<u8>
        ensures { result ≡ seat_voting self.now.bricks self.now.state from.0 call reply.now }
    {
        if !is_same_call(call, self.call) {
            return None;
        }
        let seat = self.seat_of(from)?;
        if !self.answers(reply) || has_seat(seat, self.counted.as_slice()) {
            return None;
        }
        Some(seat)
    }

    /// Counts a reply at a seat, where it counts. Where memory runs out nothing has changed.
    fn count(&mut self, alloc: Global, seat: u8, from: BrickId, reply: &Reply) -> Result<(), NoMem>
        requires { IsUnderWay self.old.bricks (with_voice self.old.state seat from reply.now) }
        ensures counted { OnOk result (self.new ≡ with_state self.old (with_voice self.old.state seat from reply.now)) }
        ensures err { OnErr result (self.new ≡ self.old) }
    {
        self.counted.push(Counted {
            seat,
            brick: from,
            reply: reply.copy(alloc)?,
        })?;
        Ok(())
    }

    /// Whether a quorum of replies counts.
    fn is_full(&self) -> bool
        ensures { result ≡ not (nat_lt (length self.now.state.counted) (ballot_quorum self.now.state)) }
    {
        self.counted.len() >= usize::from(self.policy.q())
    }

    /// The list to ask for once a quorum has promised: that of the greatest ballot that the promises tell, or the proposal's own if they tell none.
    fn chosen(&self) -> Members
        ensures value { result ≡ value_or self.now.state.own (greatest_choice self.now.state.counted) }
        ensures may_keep { is_membership self.now.state.m self.now.bricks result ≡ true }
    {
        match greatest_choice(self.counted.as_slice()) {
            Some((_, members)) => members,
            None => self.own.copy(),
        }
    }

    /// Begins to ask the members to accept a list.
    fn ask(&mut self)
        requires { self.old.state.asks ≡ None }
        ensures { self.new ≡ with_state self.old (asking self.old.state (value_or self.old.state.own (greatest_choice self.old.state.counted))) }
    {
        let members = self.chosen();
        self.asks = Some(members);
        self.call.phase += 1;
        self.counted.clear();
    }

    /// What a quorum of replies decides. There is room for the messages of a phase.
    #[tactic(auto, unfolding(protocol::specs::Proposals::ballot_decided))]
    fn decide(&mut self, room: Messages) -> ViewNext
        requires empty { room.items ≡ [] }
        requires room { length self.old.state.view.members ≤ vec_capacity room }
        ensures { Decides self.old (ballot_decided self.old.state) result (left result self.new) }
    {
        if let Some(answer) = refused_by(self.counted.as_slice()) {
            return ViewNext::End(answer);
        }
        match &self.asks {
            Some(members) => ViewNext::End(ViewAnswer::Decided {
                view: ViewNo(self.view.number.0 + 1),
                members: members.copy(),
            }),
            None => {
                self.ask();
                ViewNext::Send(self.put_messages(room))
            }
        }
    }

    /// What the proposal does with a brick's message: it counts a reply, if it counts, and decides once a quorum counts.
    ///
    /// # Errors
    ///
    /// `NoMemory` where no memory was left; then nothing has changed.
    pub(crate) fn on_reply(
        &mut self,
        alloc: Global,
        from: BrickId,
        message: &Message,
    ) -> Result<ViewNext, NoMem>
        ensures next { IfOk result (λ next. GoesOn (Some self.old) (voting_on self.old from message.now) next (left next self.new)) }
        ensures evidence { IfOk result (λ next. HasEvidence (Some self.old) from message.now next) }
        ensures err { OnErr result (self.new ≡ self.old) }
    {
        let Message::Reply(call, reply) = message else {
            return Ok(ViewNext::Wait);
        };
        let Some(seat) = self.seat_to_count(from, *call, reply) else {
            return Ok(ViewNext::Wait);
        };
        // The proof knows what is true of a proposal where one of its fields is read.
        let _ = &self.counted;
        let room = self.room(alloc)?;
        self.count(alloc, seat, from, reply)?;
        if self.is_full() {
            return Ok(self.decide(room));
        }
        Ok(ViewNext::Wait)
    }
}
