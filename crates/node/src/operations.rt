//! The open operations of a brick.

ghost use Rattle.std.specs.Prelude.{◌≡◌};
ghost use Rattle.node.specs.Kinds.{shown_in};

use crate::movers::moved_cause;
use crate::outs::{Outs, Tellings};
use crate::sending::{messages_in, put_collects};
use crate::teaching::teaching;
use coord_block::BlockOp;
use coord_phase::{News, Stage};
use coord_recover::Recovery;
use coord_stripe::StripeOp;
use fab_base::{Answer, Ask, BrickId, CallId, Members, NoMem, Op, Stamp, View, ViewNo};
use layout::{Group, Layout};
use messages::{Call, Message, Messages, Next, Turn};
use protocol::{Answered, Told};
use stamp_store::StampSource;
use std::alloc::Global;

/// An operation at the coordinator of its kind.
#[derive(Drop)]
pub enum Kind {
    /// The read or write of a stripe.
    Stripe(StripeOp),
    /// The read or write of one data block.
    Block(BlockOp),
    /// The recovery of a stripe, for an operation that asked for it.
    Recovery(Recovery),
}

/// An open operation at its coordinator, and the members of the view before its own. The coordinator is large and operations are moved often, so it lies on the
/// heap.
#[derive(Drop)]
pub struct Operation {
    kind: Box<Kind>,
    prior: Members,
    ghost before: { prior ≡ (shown_in kind.value).state.prior },
}

impl Operation {
    ghost use Rattle.std.specs.Prelude.{◌≡◌, ◌≤◌, ◌<◌, ◌-◌, ◌^◌, true, false, Option, None, IfOk, IfSome, OnOk, OnErr, [], ◌∷◌, length, vec_len, vec_capacity};
    ghost use Rattle.fab_base.specs.declared.stamps.Stamp as machine_stamp;
    ghost use Rattle.quorum.specs.Quorums.{IsWithinLimits};
    ghost use Rattle.fab_base.specs.Layouts.{Layout};
    ghost use Rattle.protocol.specs.Nodes.{has_block, has_length, seen_told};
    ghost use Rattle.coord_phase.specs.Operations.{PriorIsWithinLimits, group_in_view, first_op, is_storing, seen_in, stored_in};
    ghost use Rattle.protocol.specs.Coordinators.{asked_group};
    ghost use Rattle.coord_phase.specs.Decisions as decisions;
    ghost use Rattle.coord_phase.specs.Decisions.{Answers, AsksRecovery, NeverRecovers, IsSend, decided_on, begins_in};
    ghost use Rattle.coord_phase.specs.Messages.{phase_messages};
    ghost use Rattle.protocol.specs.Nodes.{view_in};
    ghost use Rattle.protocol.specs.Coordinators as machine;
    ghost use Rattle.coord_phase.specs.Operations.{counts, heard, with_state, without_last};
    ghost use Rattle.coord_recover.specs.Recoveries.{entered};
    ghost use Rattle.node.specs.declared.operations.Kind.TheVariants as kind;
    ghost use Rattle.node.specs.Operations.{shown_of, coordinator_of, EndsOrWaits, IsOperationOf};
    ghost use Rattle.node.specs.Teaching.{teaching};
    ghost use Rattle.node.specs.Decisions.{told_in, or_waits, known_by, SendsPhase, CarriesOut, Collects, NeverEnds};
    ghost use Rattle.node.specs.Sending.{collect_messages};

    /// The operation, as the coordinators of all kinds share it.
    pub(crate) fn shown(&self) -> &coord_phase::Operation
        ensures { result.now ≡ shown_of self.now }
    {
        match &*self.kind {
            Kind::Stripe(op) => op.operation(),
            Kind::Block(op) => op.operation(),
            Kind::Recovery(op) => op.operation(),
        }
    }

    /// The call of the present phase.
    pub fn call(&self) -> Call
        ensures { result ≡ (coordinator_of self.now).call }
    {
        self.shown().stage().call
    }

    /// The view that it belongs to.
    pub(crate) fn view(&self) -> View
        ensures { result ≡ view_in (coordinator_of self.now) }
    {
        View {
            number: self.stamp_view(),
            members: self.group().members().copy(),
            prior: self.prior.copy(),
        }
    }

    /// The group, as the members of the operation's view keep it.
    pub fn group(&self) -> &Group
        ensures { result.now ≡ (coordinator_of self.now).group }
    {
        self.shown().group()
    }

    /// The view that a new round's stamp is of.
    pub(crate) fn stamp_view(&self) -> ViewNo
        ensures { result ≡ (coordinator_of self.now).stamp.view }
    {
        self.shown().stage().stamp.view
    }

    /// The time of its stamp.
    pub(crate) fn time(&self) -> u64
        ensures { result ≡ (coordinator_of self.now).stamp.time }
    {
        self.shown().stage().stamp.time
    }

    /// Begins an operation on a stripe of a group, or on a block of it, in this view.
    fn start(
        alloc: Global,
        layout: &Layout,
        view: View,
        call: CallId,
        ask: Ask,
        stamp: Stamp,
    ) -> Result<(Operation, Next), NoMem>
        requires limits { IsWithinLimits (group_in_view layout.now view.members ask.group.0).m (length view.members) }
        requires prior { PriorIsWithinLimits (group_in_view layout.now view.members ask.group.0).m view.number view.prior }
        requires view { stamp.view ≡ view.number }
        requires block { has_block (group_in_view layout.now view.members ask.group.0).m ask.op ≡ true }
        requires fits { has_length (group_in_view layout.now view.members ask.group.0).m layout.now.block ask.op ≡ true }
        ensures operation { IfOk result (λ begun. shown_of begun.0 ≡ first_op layout.now view call ask stamp) }
        ensures send { IfOk result (λ begun. IsSend begun.1) }
        ensures sent { IfOk result (λ begun. decisions.SendsPhase (shown_of begun.0) begun.1) }
    {
        let prior = view.prior.copy();
        match &ask.op {
            Op::ReadBlock(_) | Op::WriteBlock(_, _) => {
                let (op, next) = BlockOp::start(alloc, layout, view, call, ask, stamp)?;
                let kind = Box::new(alloc, Kind::Block(op))?;
                Ok((Operation { kind, prior }, next))
            }
            Op::ReadStripe | Op::WriteStripe(_) => {
                let (op, next) = StripeOp::start(alloc, layout, view, call, ask, stamp)?;
                let kind = Box::new(alloc, Kind::Stripe(op))?;
                Ok((Operation { kind, prior }, next))
            }
        }
    }

    /// Begins an operation on a stripe of a group, or on a block of it, in this view: the operation, and the messages of its first phase.
    pub fn begin(
        alloc: Global,
        layout: &Layout,
        view: View,
        call: CallId,
        ask: &Ask,
        stamp: Stamp,
    ) -> Result<(Operation, Messages), NoMem>
        requires limits { IsWithinLimits (group_in_view layout.now view.members ask.now.group.0).m (length view.members) }
        requires prior { PriorIsWithinLimits (group_in_view layout.now view.members ask.now.group.0).m view.number view.prior }
        requires view { stamp.view ≡ view.number }
        requires block { has_block (group_in_view layout.now view.members ask.now.group.0).m ask.now.op ≡ true }
        requires fits { has_length (group_in_view layout.now view.members ask.now.group.0).m layout.now.block ask.now.op ≡ true }
        ensures operation { IfOk result (λ begun. shown_of begun.0 ≡ first_op layout.now view call ask.now stamp) }
        ensures sends { IfOk result (λ begun. SendsPhase layout.now begun.0 begun.1.items) }
        ensures few { IfOk result (λ begun. vec_len begun.1 ≤ 32) }
    {
        let (op, next) = Operation::start(alloc, layout, view, call, ask.copy(alloc)?, stamp)?;
        // There is a message for each member that is asked, and these are few.
        let _ = op.asked_count();
        Ok((op, messages_in(alloc, next)))
    }

    /// The recovery of a stripe, which goes on from this operation in the next phase of its call: it, and the messages of that phase.
    ///
    /// # Errors
    ///
    /// `NoMemory` where no memory was left.
    pub(crate) fn recovering(
        alloc: Global,
        op: &coord_phase::Operation,
    ) -> Result<(Operation, Messages), NoMem>
        requires phase { op.now.state.call.phase < 2 ^ 32 - 1 }
        ensures operation { IfOk result (λ begun. shown_of begun.0 ≡ entered op.now Turn.Order) }
        ensures sends { IfOk result (λ begun. begun.1.items ≡ phase_messages (shown_of begun.0)) }
        ensures few { IfOk result (λ begun. vec_len begun.1 ≤ 32) }
    {
        let (recovery, next) = coord_recover::follow(alloc, op, Turn::Order)?;
        let op = Operation {
            prior: op.view().prior.copy(),
            kind: Box::new(alloc, Kind::Recovery(recovery))?,
        };
        // There is a message for each member that is asked, and these are few.
        let _ = op.asked_count();
        Ok((op, messages_in(alloc, next)))
    }

    /// The messages of the present phase again, to each member that is asked without a reply that counts.
    fn messages(&self, alloc: Global) -> Result<Messages, NoMem>
        ensures messages { IfOk result (λ messages. messages.items ≡ phase_messages (shown_of self.now)) }
        ensures few { IfOk result (λ messages. vec_len messages ≤ 32) }
    {
        // There is at most a message for each member that is asked, and these are few.
        let _ = self.asked_count();
        self.shown().messages(alloc)
    }

    /// The same, each right after one that teaches its receiver the operation's view, where that is later than view 1.
    pub fn on_tick(&self, alloc: Global) -> Result<Messages, NoMem>
        ensures messages { IfOk result (λ messages. messages.items
            ≡ teaching (coordinator_of self.now).call.group (view_in (coordinator_of self.now)) (phase_messages (shown_of self.now))) }
        ensures few { IfOk result (λ messages. vec_len messages ≤ 64) }
    {
        let messages = self.messages(alloc)?;
        let view = self.view();
        teaching(alloc, self.call().group, &view, messages)
    }

    /// Whether a message counts: it is a reply to this very phase of the operation, answers it, and is its member's first.
    pub fn counts(&self, from: BrickId, message: &Message) -> bool
        ensures { result ≡ counts (shown_of self.now) from message.now }
    {
        match &*self.kind {
            Kind::Stripe(op) => op.counts(from, message),
            Kind::Block(op) => op.counts(from, message),
            Kind::Recovery(op) => op.counts(from, message),
        }
    }

    /// How many members the operation's view has, at most 32.
    fn member_count(&self) -> usize
        ensures value { result ≡ length (coordinator_of self.now).group.members }
        ensures few { result ≤ 32 }
    {
        self.group().policy().n() as usize
    }

    /// How many members the present phase asks, at most 32.
    fn asked_count(&self) -> usize
        ensures value { result ≡ length (asked_group (coordinator_of self.now)).members }
        ensures few { result ≤ 32 }
    {
        self.shown().asked().policy().n() as usize
    }

    /// Room for the messages that let all members collect. Only an operation that has members keep its version may end with such messages.
    fn room_to_collect(&self, alloc: Global) -> Result<Messages, NoMem>
        ensures empty { IfOk result (λ room. room.items ≡ []) }
        ensures few { length (coordinator_of self.now).group.members ≤ 32 }
        ensures room { IfOk result (λ room. is_storing (coordinator_of self.now).phase ≡ true → length (coordinator_of self.now).group.members ≤ vec_capacity room) }
    {
        let most = self.member_count();
        if !self.shown().is_storing() {
            return Ok(Vec::new(alloc));
        }
        Ok(Vec::with_capacity(alloc, most)?)
    }

    /// Takes a message in place, and may ask that its stripe be recovered. A new round of ordering would have the fresh stamp, which is of the operation's
    /// view; there is none where no later time is left.
    fn hear(
        &mut self,
        from: BrickId,
        message: &Message,
        fresh: Option<Stamp>,
    ) -> Result<Next, NoMem>
        requires fresh { IfSome fresh (λ stamp. stamp.view ≡ (coordinator_of self.old).stamp.view) }
        ensures answers { IfOk result (λ next. Answers fresh (shown_of self.old) from message.now next (shown_of self.new)) }
        ensures recovery { IfOk result (λ next. AsksRecovery true (shown_of self.old).block next (shown_of self.old).state
            (without_last (shown_of self.new).state)) }
        ensures same { OnErr result (shown_of self.new ≡ shown_of self.old) }
    {
        match &mut *self.kind {
            Kind::Stripe(op) => op.on_reply(from, message, fresh),
            Kind::Block(op) => op.on_reply(from, message, fresh),
            Kind::Recovery(op) => op.on_reply(from, message, fresh),
        }
    }

    /// Takes the last reply that counted back.
    pub(crate) fn take_back(&mut self)
        ensures { shown_of self.new ≡ with_state (shown_of self.old) (without_last (shown_of self.old).state) }
    {
        match &mut *self.kind {
            Kind::Stripe(op) => op.take_back(),
            Kind::Block(op) => op.take_back(),
            Kind::Recovery(op) => op.take_back(),
        }
    }

    /// Takes a message in place, as `hear`. An operation whose stripe is to be recovered becomes the recovery, in the next phase of its
    /// call; where memory runs out for that, it takes the reply back on which it asked for this.
    fn take_reply(
        &mut self,
        alloc: Global,
        from: BrickId,
        message: &Message,
        fresh: Option<Stamp>,
    ) -> Result<Next, NoMem>
        requires fresh { IfSome fresh (λ stamp. stamp.view ≡ (coordinator_of self.old).stamp.view) }
        ensures answers { IfOk result (λ next. Answers fresh (shown_of self.old) from message.now next (shown_of self.new)) }
        ensures never { IfOk result NeverRecovers }
        ensures same { OnErr result (coordinator_of self.new ≡ coordinator_of self.old) }
        ensures block { OnErr result ((shown_of self.new).block ≡ (shown_of self.old).block) }
    {
        match self.hear(from, message, fresh)? {
            Next::Recover(turn) => match coord_recover::follow(alloc, self.shown(), turn) {
                Ok((recovery, next)) => {
                    self.become_recovery(recovery);
                    Ok(next)
                }
                Err(fault) => {
                    self.take_back();
                    Err(fault)
                }
            },
            next => Ok(next),
        }
    }

    /// The operation becomes this recovery, which the members of the same view keep.
    fn become_recovery(&mut self, recovery: Recovery)
        requires { recovery.state.prior ≡ (coordinator_of self.old).prior }
        ensures { self.new.kind.value ≡ kind.Recovery recovery }
    {
        *self.kind = Kind::Recovery(recovery);
    }

    /// What is sent and told as a phase begins: the version, where the operation makes it. The stamp of a new round is known from now on.
    fn begin_phase(&self, messages: Messages, stamps: &mut StampSource) -> Outs
        ensures outs { result ≡ record {
          messages = messages.items;
          told = told_in (coordinator_of self.now).call.seq (begins_in (shown_of self.now).news (coordinator_of self.now));
          answers = [];
          reports = [];
        } }
        ensures known { stamps.new.known ≡ known_by stamps.old.known (begins_in (shown_of self.now).news (coordinator_of self.now)) }
        ensures boot { stamps.new.boot ≡ stamps.old.boot }
    {
        let op = self.shown();
        let Stage { stamp, call, .. } = op.stage();
        match op.news() {
            News::Made => Outs {
                messages,
                told: Tellings::of_version(Some(Told::Made {
                    seq: call.seq,
                    stamp,
                    base: op.base(),
                })),
                answer: None,
                report: None,
            },
            News::Nothing | News::Seen(_) | News::Stored => {
                stamps.saw(stamp);
                Outs::sending(messages)
            }
        }
    }

    /// What is sent, told and answered at the end of a call, in this room: all members may collect what is below the version that was
    /// stored.
    fn end(&self, room: Messages, call: Call, answer: Answer) -> Outs
        requires empty { room.items ≡ [] }
        requires room { Collects (stored_in (shown_of self.now).news (coordinator_of self.now).stamp) (length (coordinator_of self.now).group.members ≤ vec_capacity room) }
        ensures { result ≡ record {
          messages = collect_messages call (stored_in (shown_of self.now).news (coordinator_of self.now).stamp) (coordinator_of self.now).group.members;
          told = seen_told call.seq (seen_in (shown_of self.now).news);
          answers = record { seq = call.seq; answer = answer } ∷ [];
          reports = [];
        } }
    {
        let seq = call.seq;
        let told = match self.shown().seen() {
            Some(stamp) => Some(Told::Seen { seq, stamp }),
            None => None,
        };
        Outs {
            messages: put_collects(room, self.group(), call, self.shown().made()),
            told: Tellings::of_version(told),
            answer: Some(Answered { seq, answer }),
            report: None,
        }
    }

    /// What the operation does with a message, in place: what is sent, told and answered. A new round of ordering would have the fresh
    /// stamp; there is none where no later time is left. The stamp of a new round is known from then on.
    ///
    /// # Errors
    ///
    /// `NoMemory` where no memory was left: the operation is as it was.
    pub fn on_reply(
        &mut self,
        alloc: Global,
        from: BrickId,
        message: &Message,
        fresh: Option<Stamp>,
        stamps: &mut StampSource,
    ) -> Result<Outs, NoMem>
        requires fresh { IfSome fresh (λ stamp. stamp.view ≡ (coordinator_of self.old).stamp.view) }
        ensures step { IfOk result (λ outs. (layout : Layout) → IsOperationOf layout self.old → CarriesOut layout self.old self.new stamps.old.known
            stamps.new.known (or_waits (coordinator_of self.old) (decided_on fresh (shown_of self.old) from message.now)) outs) }
        ensures few { IfOk result (λ outs. length outs.messages ≤ 32) }
        ensures boot { stamps.new.boot ≡ stamps.old.boot }
        ensures group { OnOk result ((coordinator_of self.new).group ≡ (coordinator_of self.old).group) }
        ensures only { OnOk result ((coordinator_of self.new).only ≡ (coordinator_of self.old).only) }
        ensures same { OnErr result (coordinator_of self.new ≡ coordinator_of self.old) }
        ensures block { OnErr result ((shown_of self.new).block ≡ (shown_of self.old).block) }
    {
        // All that an end needs is there before the reply counts: nothing can fail after it.
        let room = self.room_to_collect(alloc)?;
        let call = self.call();
        match self.take_reply(alloc, from, message, fresh)? {
            Next::Wait => Ok(Outs::nothing(alloc)),
            Next::Send(messages) => {
                // There is a message for each member that is asked, and these are few.
                let _ = self.asked_count();
                Ok(self.begin_phase(messages, stamps))
            }
            Next::End(answer) => Ok(self.end(room, call, answer)),
            Next::Recover(_) => unreachable!(),
        }
    }

    /// Whether a message may end the operation: it counts, and as many replies count then as decide the phase.
    pub(crate) fn may_end(&self, from: BrickId, message: &Message) -> bool
        ensures { result ≡ false → (fresh : Option machine_stamp.Stamp) → NeverEnds (decided_on fresh (shown_of self.now) from message.now) }
    {
        self.counts(from, message) && self.shown().counted().len() + 1 >= self.shown().needed()
    }

    /// Counts a reply on which the operation waits for more.
    ///
    /// # Errors
    ///
    /// `NoMemory` where no memory was left: the operation is as it was.
    pub(crate) fn count(&mut self, from: BrickId, message: &Message) -> Result<(), NoMem>
        requires waits { decided_on None (shown_of self.old) from message.now ≡ machine.Waits (heard (shown_of self.old) from message.now).state }
        requires counts { counts (shown_of self.old) from message.now ≡ true }
        ensures counted { OnOk result (coordinator_of self.new ≡ (heard (shown_of self.old) from message.now).state) }
        ensures same { OnErr result (coordinator_of self.new ≡ coordinator_of self.old) }
        ensures block { (shown_of self.new).block ≡ (shown_of self.old).block }
    {
        match self.hear(from, message, None)? {
            Next::Wait => Ok(()),
            Next::Send(_) | Next::End(_) | Next::Recover(_) => unreachable!(),
        }
    }

    /// How the operation ends on a member's reply that counts and tells this later view: it is aborted by the mover of the lowest seat. None where it waits
    /// for more replies.
    pub(crate) fn ended_by(&self, from: BrickId, view: ViewNo) -> Option<Answer>
        ensures { EndsOrWaits (coordinator_of self.now) from view result }
    {
        match moved_cause(self.shown(), from, view) {
            None => None,
            Some(cause) => Some(Answer::Aborted(cause)),
        }
    }
}
