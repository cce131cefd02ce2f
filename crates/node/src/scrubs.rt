//! The scrub of a brick: some members of a stripe are brought to one version.

ghost use Rattle.std.specs.Prelude.{◌≡◌};
ghost use Rattle.node.specs.Scrubs.{cause_in};

use crate::jobs::closed;
use crate::movers::moved_cause;
use crate::operations::Operation;
use crate::outs::Outs;
use crate::teaching::teaching;
use coord_phase::Stage;
use fab_base::{
    Answer, BrickId, CallId, Cause, GroupId, Members, NoMem, Stamp, StripeNo, View, ViewNo,
};
use layout::Layout;
use messages::{Call, Message, Messages};
use protocol::{Answered, Report, ScrubAnswer, Told};
use scrub::{Scrub, ScrubNext};
use stamp_store::StampSource;
use std::alloc::Global;

/// A scrub that a brick has under way: its look, and from then on the recovery of its stripe, once the look found its members to be kept apart.
#[derive(Drop)]
pub struct OpenScrub {
    scrub: Scrub,
    recovery: Option<Operation>,
}

/// The cause by which a scrub was aborted, if it was.
fn cause_in(answer: &ScrubAnswer) -> Option<Cause>
    ensures { result ≡ cause_in answer.now }
{
    match answer {
        ScrubAnswer::Aborted { cause } => Some(*cause),
        ScrubAnswer::Clean | ScrubAnswer::Repaired { .. } => None,
    }
}

impl OpenScrub {
    ghost use Rattle.std.specs.Prelude.{◌≡◌, ◌≤◌, ◌<◌, ◌-◌, ◌^◌, true, nat_eq, None, Option, Some, IfOk, IfSome, OnOk, OnErr, length, vec_len};
    ghost use Rattle.fab_base.specs.Layouts as layouts;
    ghost use Rattle.fab_base.specs.declared.identities.BrickId.{BrickId};
    ghost use Rattle.coord_phase.specs.Operations.{PriorIsWithinLimits, counts, group_in_view, heard};
    ghost use Rattle.coord_phase.specs.Decisions.{decided_on};
    ghost use Rattle.protocol.specs.Coordinators as machine;
    ghost use Rattle.protocol.specs.Coordinators.{AreEnough};
    ghost use Rattle.coord_phase.specs.Messages.{packets_from};
    ghost use Rattle.quorum.specs.Quorums.{IsWithinLimits};
    ghost use Rattle.stripe_code.specs.Codes.{coding};
    ghost use Rattle.protocol.specs.Nodes.{resent, view_in};
    ghost use Rattle.fab_base.specs.declared.stamps.Stamp as machine_stamp;
    ghost use Rattle.protocol.specs.Jobs.{abort_cause};
    ghost use Rattle.protocol.specs.Scrubs.{scrub_answer};
    ghost use Rattle.scrub.specs.Scrubs.{taken_back};
    ghost use Rattle.node.specs.Scrubs.{BeginsScrub, HasCountedScrub, IsScrubOf, IsScrubAsBefore, MovesScrub, Recovers, StepsScrub, end_outs, scrub_coordinator_of, scrub_shown, without_reply};

    /// Begins a scrub of these members of a stripe, in this view: it, and the messages of its look.
    pub(crate) fn begin(
        alloc: Global,
        layout: &Layout,
        view: View,
        call: CallId,
        group: GroupId,
        stripe: StripeNo,
        stamp: Stamp,
        members: Members,
    ) -> Result<(OpenScrub, Messages), NoMem>
        requires limits { IsWithinLimits (group_in_view layout.now view.members group.0).m (length view.members) }
        requires prior { PriorIsWithinLimits (group_in_view layout.now view.members group.0).m view.number view.prior }
        requires view { stamp.view ≡ view.number }
        requires enough { AreEnough (group_in_view layout.now view.members group.0) (Some members) }
        ensures begins { IfOk result (λ begun. BeginsScrub layout.now view call group stripe stamp members begun.0 begun.1.items) }
        ensures few { IfOk result (λ begun. vec_len begun.1 ≤ 32) }
    {
        let (scrub, next) = Scrub::start(alloc, layout, view, call, group, stripe, stamp, members)?;
        // There is a message for each member that is asked, and these are few.
        let _ = scrub.look().asked().policy().n();
        let open = OpenScrub {
            scrub,
            recovery: None,
        };
        match next {
            ScrubNext::Send(messages) => Ok((open, messages)),
            ScrubNext::Wait | ScrubNext::Recover | ScrubNext::End(_) => unreachable!(),
        }
    }

    /// The operation in its present phase.
    fn shown(&self) -> &coord_phase::Operation
        ensures { result.now ≡ scrub_shown self.now }
    {
        match &self.recovery {
            Some(recovery) => recovery.shown(),
            None => self.scrub.look(),
        }
    }

    /// The call of its present phase.
    pub(crate) fn call(&self) -> Call
        ensures { result ≡ (scrub_coordinator_of self.now).call }
    {
        self.shown().stage().call
    }

    /// The view that it belongs to.
    pub(crate) fn view(&self) -> View
        ensures { result ≡ view_in (scrub_coordinator_of self.now) }
    {
        self.shown().view()
    }

    /// The view that a new round's stamp is of.
    pub(crate) fn stamp_view(&self) -> ViewNo
        ensures { result ≡ (scrub_coordinator_of self.now).stamp.view }
    {
        self.shown().stage().stamp.view
    }

    /// Whether it has the call of this number.
    pub(crate) fn has_call(&self, seq: u64) -> bool
        ensures { result ≡ nat_eq (scrub_coordinator_of self.now).call.seq seq }
    {
        self.call().seq == seq
    }

    /// Whether a message counts in its present phase.
    pub(crate) fn counts(&self, from: BrickId, message: &Message) -> bool
        ensures { result ≡ counts (scrub_shown self.now) from message.now }
    {
        self.shown().counts(from, message)
    }

    /// What is sent, told and reported as it ends so in the phase of this call, with a version that it saw its members keep, if it did.
    fn end(&self, call: Call, messages: Messages, seen: Option<Stamp>, answer: ScrubAnswer) -> Outs
        ensures { result ≡ end_outs self.now call messages.items seen answer }
    {
        let seq = call.seq;
        let version = match seen {
            Some(stamp) => Some(Told::Seen { seq, stamp }),
            None => None,
        };
        Outs {
            messages,
            told: closed(seq, version, cause_in(&answer)),
            answer: None,
            report: Some(Report::Scrub {
                call,
                members: self.scrub.members(),
                answer,
            }),
        }
    }

    /// Begins the recovery of its stripe, whose stamp is known from then on. Where memory runs out, the scrub takes the reply back on which it came to this.
    fn recover(&mut self, alloc: Global, stamps: &mut StampSource) -> Result<Outs, NoMem>
        requires looks { self.old.recovery ≡ None }
        requires phase { self.old.scrub.look.state.call.phase < 2 ^ 32 - 1 }
        ensures recovers { IfOk result (Recovers self.old self.new stamps.old.known stamps.new.known) }
        ensures few { IfOk result (λ outs. length outs.messages ≤ 32) }
        ensures boot { stamps.new.boot ≡ stamps.old.boot }
        ensures back { OnErr result (self.new.scrub ≡ taken_back self.old.scrub) }
        ensures none { OnErr result (self.new.recovery ≡ None) }
    {
        match Operation::recovering(alloc, self.scrub.look()) {
            Ok((recovery, messages)) => {
                stamps.saw(self.scrub.look().stage().stamp);
                self.scrub.note_lagging();
                self.recovery = Some(recovery);
                Ok(Outs::sending(messages))
            }
            Err(fault) => {
                self.scrub.take_back();
                Err(fault)
            }
        }
    }

    /// What it does with a message while it looks. Of a new round there is none.
    fn on_look_reply(
        &mut self,
        alloc: Global,
        from: BrickId,
        message: &Message,
        stamps: &mut StampSource,
    ) -> Result<Outs, NoMem>
        requires looks { self.old.recovery ≡ None }
        ensures step { IfOk result (λ outs. (layout : layouts.Layout) (fresh : Option machine_stamp.Stamp) → IsScrubOf layout self.old
            → StepsScrub layout self.old from message.now fresh stamps.old.known outs self.new stamps.new.known) }
        ensures few { IfOk result (λ outs. length outs.messages ≤ 32) }
        ensures boot { stamps.new.boot ≡ stamps.old.boot }
        ensures same { (layout : layouts.Layout) → OnErr result (IsScrubAsBefore layout self.old self.new) }
    {
        let call = self.call();
        match self.scrub.on_reply(from, message)? {
            ScrubNext::Wait => Ok(Outs::nothing(alloc)),
            ScrubNext::Recover => self.recover(alloc, stamps),
            ScrubNext::End(answer) => {
                let seen = self.scrub.clean_version();
                Ok(self.end(call, Vec::new(alloc), seen, answer))
            }
            ScrubNext::Send(_) => unreachable!(),
        }
    }

    /// How it ends, once the recovery of its stripe has ended with this answer, its version having this stamp.
    fn answer(&self, stamp: Stamp, answer: &Answer) -> ScrubAnswer
        ensures { result ≡ scrub_answer self.now.scrub.lagging (abort_cause answer.now) (Some stamp) }
    {
        match answer {
            Answer::Aborted(cause) => ScrubAnswer::Aborted { cause: *cause },
            Answer::Data(_) | Answer::Done => self.scrub.on_stored(stamp),
        }
    }

    /// What it does with a message, in place: what is sent, told and reported; with a report it has ended. A new round of ordering would have the fresh stamp; there
    /// is none where no later time is left. The stamp of a new round is known from then on.
    ///
    /// # Errors
    ///
    /// `NoMemory` where no memory was left: the scrub is as it was.
    pub(crate) fn on_reply(
        &mut self,
        alloc: Global,
        from: BrickId,
        message: &Message,
        fresh: Option<Stamp>,
        stamps: &mut StampSource,
    ) -> Result<Outs, NoMem>
        requires fresh { IfSome fresh (λ stamp. stamp.view ≡ (scrub_coordinator_of self.old).stamp.view) }
        ensures step { IfOk result (λ outs. (layout : layouts.Layout) → IsScrubOf layout self.old
            → StepsScrub layout self.old from message.now fresh stamps.old.known outs self.new stamps.new.known) }
        ensures few { IfOk result (λ outs. length outs.messages ≤ 32) }
        ensures boot { stamps.new.boot ≡ stamps.old.boot }
        ensures same { (layout : layouts.Layout) → OnErr result (IsScrubAsBefore layout self.old self.new) }
    {
        // What tells its end is of the phase in which the message comes.
        let Stage { stamp, call, .. } = self.shown().stage();
        let Some(recovery) = &mut self.recovery else {
            return self.on_look_reply(alloc, from, message, stamps);
        };
        let outs = recovery.on_reply(alloc, from, message, fresh, stamps)?;
        let (messages, told, answer, _) = outs.into_parts();
        match answer {
            Some(Answered { answer, .. }) => {
                Ok(self.end(call, messages, None, self.answer(stamp, &answer)))
            }
            None => Ok(Outs {
                messages,
                told,
                answer: None,
                report: None,
            }),
        }
    }

    /// What is told and reported of its end on a member's reply that counts and tells this later view. None where it waits for more replies. Nothing has changed
    /// yet.
    pub(crate) fn moved(&self, alloc: Global, from: BrickId, view: ViewNo) -> Option<Outs>
        ensures { MovesScrub self.now from view result }
    {
        let cause = moved_cause(self.shown(), from, view)?;
        Some(self.end(
            self.call(),
            Vec::new(alloc),
            None,
            ScrubAnswer::Aborted { cause },
        ))
    }

    /// Counts a reply on which it waits for more.
    ///
    /// # Errors
    ///
    /// `NoMemory` where no memory was left: the scrub is as it was.
    pub(crate) fn count(&mut self, from: BrickId, message: &Message) -> Result<(), NoMem>
        requires waits { decided_on None (scrub_shown self.old) from message.now ≡ machine.Waits (heard (scrub_shown self.old) from message.now).state }
        requires counts { counts (scrub_shown self.old) from message.now ≡ true }
        ensures counted { OnOk result (HasCountedScrub from message.now self.old self.new) }
        ensures same { (layout : layouts.Layout) → OnErr result (IsScrubAsBefore layout self.old self.new) }
    {
        if let Some(recovery) = &mut self.recovery {
            return recovery.count(from, message);
        }
        match self.scrub.on_reply(from, message)? {
            ScrubNext::Wait => Ok(()),
            ScrubNext::Send(_) | ScrubNext::Recover | ScrubNext::End(_) => unreachable!(),
        }
    }

    /// Takes the last reply that counted back.
    pub(crate) fn take_back(&mut self)
        ensures shown { scrub_shown self.new ≡ without_reply (scrub_shown self.old) }
        ensures lagging { self.new.scrub.lagging ≡ self.old.scrub.lagging }
        ensures of { (layout : layouts.Layout) → IsScrubOf layout self.old → IsScrubOf layout self.new }
    {
        match &mut self.recovery {
            Some(recovery) => recovery.take_back(),
            None => self.scrub.take_back(),
        }
    }

    /// Its present phase again, to each member that is asked without a reply that counts, each message right after one that teaches its receiver the view, where that
    /// is later than view 1.
    pub(crate) fn on_tick(&self, alloc: Global) -> Result<Messages, NoMem>
        ensures packets { IfOk result (λ messages. (layout : layouts.Layout) (me : BrickId) → IsScrubOf layout self.now
            → packets_from me messages.items ≡ resent (coding layout) me (Some (scrub_coordinator_of self.now))) }
        ensures few { IfOk result (λ messages. vec_len messages ≤ 64) }
    {
        if let Some(recovery) = &self.recovery {
            return recovery.on_tick(alloc);
        }
        // There is at most a message for each member that is asked, and these are few.
        let _ = self.scrub.look().asked().policy().n();
        match self.scrub.on_tick()? {
            ScrubNext::Send(messages) => {
                teaching(alloc, self.call().group, &self.view(), messages)
            }
            ScrubNext::Wait | ScrubNext::Recover | ScrubNext::End(_) => unreachable!(),
        }
    }
}
