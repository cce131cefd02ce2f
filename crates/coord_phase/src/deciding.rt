//! What an operation does with a reply.

ghost use Rattle.std.specs.Prelude.{Bool};
ghost use Rattle.protocol.specs.declared.phases.Phase.{Phase};

use crate::operations::Operation;
use fab_base::{BrickId, NoMem, Stamp};
use messages::{Message, Next};
use std::alloc::Global;

/// How the operations of one kind go on once a quorum of replies counts.
pub trait Decide {
    ghost use Rattle.std.specs.Prelude.{◌≡◌, ◌-◌, ◌<◌, ◌≤◌, ◌^◌, true, None, IfOk, IfSome, OnOk, OnErr, length};
    ghost use Rattle.protocol.specs.Coordinators.{decided, lowest_full, lowest_mover, lowest_dropper};
    ghost use Rattle.protocol.specs.Nodes.{has_length};
    ghost use Rattle.stripe_code.specs.Codes.{block_code};
    ghost use Rattle.coord_phase.specs.Operations.{StaysAsked};
    ghost use Rattle.coord_phase.specs.Decisions.{SendsPhase, AsksRecovery, decision};

    // whether operations of this kind may be in a phase
    ghost is_own: { Phase → Bool };

    // whether they may ask that their stripe be recovered
    ghost may_recover: { Bool };

    /// What a quorum of replies decides, none of which tells of a later view, of versions that were dropped, or of a full store. A new round of ordering would have
    /// the fresh stamp, which is of the operation's view.
    ///
    /// # Errors
    ///
    /// `NoMemory` where no memory was left; then nothing has changed.
    fn decide(op: &mut Operation, alloc: Global, fresh: Option<Stamp>) -> Result<Next, NoMem>
        requires own { is_own op.old.state.phase ≡ true }
        requires served { lowest_mover op.old.state.counted ≡ None }
        requires kept { lowest_dropper op.old.state.counted ≡ None }
        requires room { lowest_full op.old.state.counted ≡ None }
        requires long { has_length op.old.state.group.m op.old.block op.old.state.ask.op ≡ true }
        requires enough { op.old.state.group.m ≤ length op.old.state.counted }
        requires few { op.old.state.call.phase < 2 ^ 32 - 1 }
        requires fresh { IfSome fresh (λ stamp. stamp.view ≡ op.old.state.stamp.view) }
        ensures next { IfOk result (λ next. decision op.new next ≡ decided op.old.block (block_code op.old.block) fresh op.old.state) }
        ensures sent { IfOk result (λ next. SendsPhase op.new next) }
        ensures stays { OnOk result (StaysAsked op.old op.new) }
        ensures own { OnOk result (is_own op.new.state.phase ≡ true) }
        ensures recovery { IfOk result (λ next. AsksRecovery may_recover op.old.block next op.old.state op.new.state) }
        ensures err { OnErr result (op.new ≡ op.old) };
}

impl Operation {
    ghost use Rattle.std.specs.Prelude.{◌≡◌, true, IfOk, IfSome, OnOk, OnErr};
    ghost use Rattle.coord_phase.specs.Operations.{without_last};
    ghost use Rattle.coord_phase.specs.Decisions.{Answers, AsksRecovery};

    /// What an operation of this kind does with a message: it counts a reply, and decides once a quorum counts. A member that serves the
    /// operation's view no more aborts it, else one that has dropped its versions of the view before, and else one whose store is full, whatever the others told. A
    /// new round of ordering would have the fresh stamp, which is of the operation's view; there is none where no later time is left.
    ///
    /// # Errors
    ///
    /// `NoMemory` where no memory was left; then nothing has changed.
    pub(crate) fn on_reply<D: Decide>(
        &mut self,
        alloc: Global,
        from: BrickId,
        message: &Message,
        fresh: Option<Stamp>,
    ) -> Result<Next, NoMem>
        requires own { D.is_own self.old.state.phase ≡ true }
        requires fresh { IfSome fresh (λ stamp. stamp.view ≡ self.old.state.stamp.view) }
        ensures answers { IfOk result (λ next. Answers fresh self.old from message.now next self.new) }
        ensures own { OnOk result (D.is_own self.new.state.phase ≡ true) }
        ensures recovery { IfOk result (λ next. AsksRecovery D.may_recover self.old.block next self.old.state (without_last self.new.state)) }
        ensures err { OnErr result (self.new ≡ self.old) }
    {
        if !self.count(alloc, from, message)? {
            return Ok(self.wait());
        }
        if !self.is_full() {
            return Ok(self.wait());
        }
        if let Some(member) = self.mover() {
            return Ok(self.abort_moved(member));
        }
        if let Some(member) = self.dropper() {
            return Ok(self.abort_gone(member));
        }
        if let Some(member) = self.full_member() {
            return Ok(self.abort_full(member));
        }
        match D::decide(self, alloc, fresh) {
            Ok(next) => Ok(next),
            Err(fault) => {
                self.take_back();
                Err(fault)
            }
        }
    }
}
