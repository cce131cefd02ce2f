//! Open operations of one kind.

ghost use Rattle.std.specs.Prelude.{◌≡◌};
ghost use Rattle.protocol.specs.Nodes.{first_phase};

use crate::deciding::Decide;
use crate::operations::Operation;
use fab_base::{Ask, BrickId, CallId, NoMem, Op, Stamp, View};
use layout::Layout;
use messages::{Message, Next};
use protocol::Phase;
use std::alloc::Global;
use std::marker::{Model, PhantomData};

/// The first phase of an operation: a read looks, a write orders.
fn first_phase(op: &Op) -> Phase
    ensures { result ≡ first_phase op.now }
{
    match op {
        Op::ReadBlock(j) => Phase::LooksAt(*j),
        Op::WriteBlock(j, _) => Phase::OrdersAt(*j),
        Op::ReadStripe => Phase::Looks,
        Op::WriteStripe(_) => Phase::Orders,
    }
}

/// An open operation at its coordinator, of a kind that says how it goes on once a quorum of replies counts.
#[derive(Drop)]
pub struct Coordinated<K: Decide> {
    alloc: Global,
    op: Operation,
    kind: PhantomData<K>,
}

impl<K: Decide> Model for Coordinated<K> {
    ghost use Rattle.std.specs.Prelude.{◌≡◌, true};
    ghost use Rattle.coord_phase.specs.Operations.{Operation};

    ghost Value = { Operation };

    ghost view = { λ coordinated. coordinated.op };

    ghost invariant = { λ coordinated. K.is_own coordinated.op.state.phase ≡ true };
}

impl<K: Decide> Coordinated<K> {
    ghost use Rattle.std.specs.Prelude.{◌≡◌, true, IfOk, IfSome, OnErr, length};
    ghost use Rattle.quorum.specs.Quorums.{IsWithinLimits};
    ghost use Rattle.protocol.specs.Nodes.{has_block, has_length, first_phase};
    ghost use Rattle.coord_phase.specs.Operations.{PriorIsWithinLimits, group_in_view, first_op, counts, with_state, without_last};
    ghost use Rattle.coord_phase.specs.Decisions.{Answers, AsksRecovery, SendsPhase, IsSend};

    /// The operation as one of a kind that it may be of.
    pub fn new(alloc: Global, op: Operation) -> Coordinated<K>
        requires { K.is_own op.state.phase ≡ true }
        ensures { result ≡ op }
    {
        Coordinated {
            alloc,
            op,
            kind: PhantomData,
        }
    }

    /// Begins an operation of this kind, with its stamp of the view: a read looks, and a write orders. It is asked of the members of the view, whose
    /// number and that of the group's data blocks are within the limits of a quorum; so are those before them, where there is a view before. The data
    /// block that it asks for is one of these, and what it writes is one block, or m blocks.
    ///
    /// # Errors
    ///
    /// `NoMemory` where no memory was left.
    pub fn start(
        alloc: Global,
        layout: &Layout,
        view: View,
        call: CallId,
        ask: Ask,
        stamp: Stamp,
    ) -> Result<(Coordinated<K>, Next), NoMem>
        requires own { K.is_own (first_phase ask.op) ≡ true }
        requires limits { IsWithinLimits (group_in_view layout.now view.members ask.group.0).m (length view.members) }
        requires prior { PriorIsWithinLimits (group_in_view layout.now view.members ask.group.0).m view.number view.prior }
        requires view { stamp.view ≡ view.number }
        requires fits { has_block (group_in_view layout.now view.members ask.group.0).m ask.op ≡ true }
        requires length { has_length (group_in_view layout.now view.members ask.group.0).m layout.now.block ask.op ≡ true }
        ensures op { IfOk result (λ begun. begun.0 ≡ first_op layout.now view call ask stamp) }
        ensures send { IfOk result (λ begun. IsSend begun.1) }
        ensures sent { IfOk result (λ begun. SendsPhase begun.0 begun.1) }
    {
        let phase = first_phase(&ask.op);
        let op = Operation::opened(alloc, layout, &view, call, ask, stamp, phase, None);
        let messages = op.messages(alloc)?;
        Ok((Coordinated::new(alloc, op), Next::Send(messages)))
    }

    /// Whether a message counts: it is a reply to this very phase of the operation, answers it, and is its member's first.
    pub fn counts(&self, from: BrickId, reply: &Message) -> bool
        ensures { result ≡ counts self.now from reply.now }
    {
        self.op.counts(from, reply)
    }

    /// What the operation does with a message. A new round of ordering would have the fresh stamp, which is of the operation's view; there is
    /// none where no later time is left.
    ///
    /// # Errors
    ///
    /// `NoMemory` where no memory was left; then nothing has changed.
    pub fn on_reply(
        &mut self,
        from: BrickId,
        reply: &Message,
        fresh: Option<Stamp>,
    ) -> Result<Next, NoMem>
        requires fresh { IfSome fresh (λ stamp. stamp.view ≡ self.old.state.stamp.view) }
        ensures answers { IfOk result (λ next. Answers fresh self.old from reply.now next self.new) }
        ensures recovery { IfOk result (λ next. AsksRecovery K.may_recover self.old.block next self.old.state (without_last self.new.state)) }
        ensures err { OnErr result (self.new ≡ self.old) }
    {
        self.op.on_reply::<K>(self.alloc, from, reply, fresh)
    }

    /// Takes the last reply that counted back: after a reply upon which the operation asked for a recovery, its coordinator is as it
    /// was before.
    pub fn take_back(&mut self)
        ensures { self.new ≡ with_state self.old (without_last self.old.state) }
    {
        self.op.take_back();
    }

    /// The phase again, to each member without a counted reply: to all, if the operation forgot those that it had.
    ///
    /// # Errors
    ///
    /// `NoMemory` where no memory was left.
    pub fn on_tick(&self) -> Result<Next, NoMem>
        ensures send { IfOk result (λ next. IsSend next) }
        ensures sent { IfOk result (λ next. SendsPhase self.now next) }
    {
        Ok(Next::Send(self.op.messages(self.alloc)?))
    }

    /// The operation, whatever its kind.
    pub fn operation(&self) -> &Operation
        ensures { result.now ≡ self.now }
    {
        &self.op
    }
}
