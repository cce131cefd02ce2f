//! How one phase follows another.

ghost use Rattle.std.specs.Prelude.{◌≡◌, ◌*◌, IfOk, true, length};
ghost use Rattle.reg_model.specs.Registers.{block_of, after_op};
ghost use Rattle.protocol.specs.Nodes.{has_block, has_length};
ghost use Rattle.protocol.specs.Coordinators.{asked_view};

use crate::operations::{News, OnBase, Operation, Stage, looks_back};
use crate::replies::Replies;
use fab_base::{Answer, Bytes, Cause, NoMem, Op, Stamp, ViewNo};
use messages::{Messages, Next, Turn};
use protocol::{Dropper, FullMember, Mover, Phase, Refuser};
use std::alloc::Global;
use std::mem;

/// How many rounds of ordering an operation may begin.
pub const MOST_ROUNDS: u8 = 4;

/// Data block `j` of a content, as far as the content goes.
fn data_block(block: u16, j: u8, content: &[u8]) -> &[u8]
    ensures { result.now ≡ block_of block j content.now }
{
    let size = block as usize;
    let (_, rest) = content.split_at((j as usize * size).min(content.len()));
    let (data, _) = rest.split_at(size.min(rest.len()));
    data
}

/// What an operation makes of a content of m blocks.
fn content_after(alloc: Global, op: &Op, block: u16, m: u8, content: Bytes) -> Result<Bytes, NoMem>
    requires fits { has_block m op.now ≡ true }
    requires length { has_length m block op.now ≡ true }
    requires long { length content ≡ m * block }
    ensures value { IfOk result (λ made. made ≡ after_op block op.now content) }
    ensures long { IfOk result (λ made. length made ≡ m * block) }
{
    match op {
        Op::ReadBlock(_) | Op::ReadStripe => Ok(content),
        Op::WriteBlock(j, bytes) => {
            let mut blocks = Vec::from_slice(alloc, content.as_slice())?;
            let size = block as usize;
            let start = *j as usize * size;
            blocks[start..start + size].copy_from_slice(bytes.as_slice());
            Ok(Bytes::from_vec(blocks))
        }
        Op::WriteStripe(bytes) => bytes.copy(alloc),
    }
}

/// The view whose members a phase of an operation of this stamp asks.
fn asked_view(stamp: Stamp, phase: Phase) -> ViewNo
    ensures { result ≡ asked_view stamp phase }
{
    if looks_back(phase) {
        return ViewNo(stamp.view.0.saturating_sub(1));
    }
    stamp.view
}

impl Operation {
    ghost use Rattle.std.specs.Prelude.{◌≡◌, ◌-◌, ◌*◌, ◌<◌, ◌^◌, true, None, Some, IsSome, IfSome, IfOk, OnOk, OnErr, length};
    ghost use Rattle.protocol.specs.Coordinators.{Ends, bytes_at, block_written, asked_view, next_phase, in_phase, restoring, modifying, ordered_again, answer_with, common_version_at, greatest_refuser, aborted_by, aborted_full, aborted_moved, aborted_gone, unless_refused};
    ghost use Rattle.stripe_code.specs.Codes.{block_code};
    ghost use Rattle.reg_model.specs.Registers.{read_of};
    ghost use Rattle.protocol.specs.declared.phases.Phase.TheVariants.{Orders, OrdersAt, Stores};
    ghost use Rattle.coord_phase.specs.Operations.{telling, at_stage, on_base, is_ordering, StoresBlocks, MayAsk, StaysAsked};
    ghost use Rattle.coord_phase.specs.Messages.{phase_messages};
    ghost use Rattle.coord_phase.specs.Decisions.{decision, SendsPhase, NeverRecovers};
    ghost use Rattle.coord_phase.specs.declared.operations.News.TheVariants as news;

    /// The stage with the next phase of the operation's call, which asks this of the members of its view, or of those before them.
    pub fn next_stage(&self, phase: Phase) -> Stage
        requires { self.now.state.call.phase < 2 ^ 32 - 1 }
        ensures { result ≡ record { stamp = self.now.state.stamp; round = self.now.state.round; call = record (next_phase self.now.state.call) { view = asked_view self.now.state.stamp phase }; phase = phase } }
    {
        let mut stage = self.stage;
        stage.call.phase += 1;
        stage.call.view = asked_view(stage.stamp, phase);
        stage.phase = phase;
        stage
    }

    /// Has this news of a version.
    fn tell(&mut self, news: News)
        ensures { self.new ≡ telling self.old self.old.state news }
    {
        self.news = news;
    }

    /// Waits for more replies.
    pub fn wait(&mut self) -> Next
        ensures next { result ≡ Next.Wait }
        ensures state { self.new ≡ telling self.old self.old.state news.Nothing }
    {
        self.tell(News::Nothing);
        Next::Wait
    }

    /// What an operation that stored its version is answered.
    fn answer(&self, alloc: Global) -> Result<Answer, NoMem>
        ensures { IfOk result (λ answer. answer ≡ answer_with (read_of self.now.block self.now.state.ask.op self.now.state.content)) }
    {
        let read = match &self.ask.op {
            Op::WriteBlock(_, _) | Op::WriteStripe(_) => return Ok(Answer::Done),
            Op::ReadBlock(j) => data_block(self.block, *j, self.stored()),
            Op::ReadStripe => self.stored(),
        };
        Ok(Answer::Data(Bytes::from_slice(alloc, read)?))
    }

    /// Asks that its stripe be recovered, beginning so.
    pub fn recover(&mut self, turn: Turn) -> Next
        ensures next { result ≡ Next.Recover turn }
        ensures state { self.new ≡ telling self.old self.old.state news.Nothing }
    {
        self.tell(News::Nothing);
        Next::Recover(turn)
    }

    /// Begins a stage of the operation, and gives its messages: to the members of its view, or of the view before where it looks back. Where memory runs out
    /// nothing has changed.
    pub fn begin(&mut self, alloc: Global, stage: Stage) -> Result<Messages, NoMem>
        requires content { StoresBlocks self.old.block self.old.state.group.m self.old.state.ask.op self.old.state.content stage.phase }
        requires view { stage.stamp.view ≡ self.old.state.stamp.view }
        requires asks { MayAsk stage.stamp.view stage.phase }
        ensures state { OnOk result (self.new ≡ telling self.old (at_stage self.old.state stage) news.Nothing) }
        ensures messages { IfOk result (λ messages. messages.items ≡ phase_messages self.new) }
        ensures err { OnErr result (self.new ≡ self.old) }
    {
        let none = Replies::new(alloc, self.asked_in(stage.phase).policy());
        let replies = mem::replace(&mut self.replies, none);
        let before = mem::replace(&mut self.stage, stage);
        match self.messages(alloc) {
            Ok(messages) => {
                self.tell(News::Nothing);
                Ok(messages)
            }
            Err(fault) => {
                self.stage = before;
                self.replies = replies;
                Err(fault)
            }
        }
    }

    /// Begins a phase, the call's next, in which the operation makes its version on this base, of this content. Where memory runs out
    /// nothing has changed.
    fn begin_on(
        &mut self,
        alloc: Global,
        base: Stamp,
        content: Bytes,
        phase: Phase,
    ) -> Result<Messages, NoMem>
        requires phase { self.old.state.call.phase < 2 ^ 32 - 1 }
        requires before { StoresBlocks self.old.block self.old.state.group.m self.old.state.ask.op content self.old.state.phase }
        requires content { StoresBlocks self.old.block self.old.state.group.m self.old.state.ask.op content phase }
        requires asks { MayAsk self.old.state.stamp.view phase }
        ensures state { OnOk result (self.new ≡ telling self.old (on_base (in_phase self.old.state phase) base content) news.Nothing) }
        ensures messages { IfOk result (λ messages. messages.items ≡ phase_messages self.new) }
        ensures err { OnErr result (self.new ≡ self.old) }
    {
        let before = mem::replace(&mut self.on_base, Some(OnBase { base, content }));
        match self.begin(alloc, self.next_stage(phase)) {
            Ok(messages) => Ok(messages),
            Err(fault) => {
                self.on_base = before;
                Err(fault)
            }
        }
    }

    /// Begins to store what the operation stores, in the call's next phase: it makes its version. Where memory runs out nothing has
    /// changed.
    pub fn make(&mut self, alloc: Global) -> Result<Messages, NoMem>
        requires phase { self.old.state.call.phase < 2 ^ 32 - 1 }
        requires orders { self.old.state.phase ≡ Orders }
        ensures state { OnOk result (self.new ≡ telling self.old (in_phase self.old.state Stores) news.Made) }
        ensures messages { IfOk result (λ messages. messages.items ≡ phase_messages self.new) }
        ensures err { OnErr result (self.new ≡ self.old) }
    {
        // The call tells the proof that what is ordered is ready to be stored.
        let _ = self.stored();
        let messages = self.begin(alloc, self.next_stage(Phase::Stores))?;
        self.tell(News::Made);
        Ok(messages)
    }

    /// What a data block changes by, from the bytes that its seat tells to those that the operation writes. All replies tell one version.
    fn delta_to(&self, alloc: Global, data_block: u8) -> Result<Bytes, NoMem>
        requires orders { self.now.state.phase ≡ OrdersAt data_block }
        requires base { IsSome (common_version_at data_block self.now.state.counted) }
        ensures { IfOk result (λ delta. delta ≡ (block_code self.now.block).delta (bytes_at data_block self.now.state.counted)
            (block_written self.now.state.ask.op)) }
    {
        let size = self.block;
        stripe_code::delta(alloc, size, self.bytes_at(data_block), self.block_written())
    }

    /// Begins to modify this version in a data block, in the call's next phase: it makes its version. All replies tell the base, also
    /// that of the block's seat. Where memory runs out nothing has changed.
    pub fn modify(&mut self, alloc: Global, base: Stamp, data_block: u8) -> Result<Messages, NoMem>
        requires phase { self.old.state.call.phase < 2 ^ 32 - 1 }
        requires orders { self.old.state.phase ≡ OrdersAt data_block }
        requires base { common_version_at data_block self.old.state.counted ≡ Some base }
        ensures state { OnOk result (self.new ≡ telling self.old (modifying (block_code self.old.block) self.old.state base data_block) news.Made) }
        ensures messages { IfOk result (λ messages. messages.items ≡ phase_messages self.new) }
        ensures err { OnErr result (self.new ≡ self.old) }
    {
        // The call tells the proof that a block is written.
        let _ = self.block_written();
        let delta = self.delta_to(alloc, data_block)?;
        let messages = self.begin_on(alloc, base, delta, Phase::Modifies { base, data_block })?;
        self.tell(News::Made);
        Ok(messages)
    }

    /// What the operation makes of a content of m blocks.
    fn content_on(&self, alloc: Global, content: Bytes) -> Result<Bytes, NoMem>
        requires { length content ≡ self.now.state.group.m * self.now.block }
        ensures value { IfOk result (λ made. made ≡ after_op self.now.block self.now.state.ask.op content) }
        ensures long { IfOk result (λ made. length made ≡ self.now.state.group.m * self.now.block) }
        ensures ready { IfOk result (λ made. StoresBlocks self.now.block self.now.state.group.m self.now.state.ask.op made self.now.state.phase) }
    {
        content_after(alloc, &self.ask.op, self.block, self.group.m(), content)
    }

    /// Begins to store what the operation makes of this version, whose content it read back, in the call's next phase. Where memory runs
    /// out nothing has changed.
    pub fn restore(&mut self, alloc: Global, base: Stamp, content: Bytes) -> Result<Messages, NoMem>
        requires phase { self.old.state.call.phase < 2 ^ 32 - 1 }
        requires content { length content ≡ self.old.state.group.m * self.old.block }
        ensures state { OnOk result (self.new ≡ telling self.old (restoring self.old.block self.old.state base content) news.Nothing) }
        ensures messages { IfOk result (λ messages. messages.items ≡ phase_messages self.new) }
        ensures err { OnErr result (self.new ≡ self.old) }
    {
        let stored = self.content_on(alloc, content)?;
        self.begin_on(alloc, base, stored, Phase::Stores)
    }

    /// The same, where that makes the operation's version.
    pub fn make_on(&mut self, alloc: Global, base: Stamp, content: Bytes) -> Result<Messages, NoMem>
        requires phase { self.old.state.call.phase < 2 ^ 32 - 1 }
        requires content { length content ≡ self.old.state.group.m * self.old.block }
        ensures state { OnOk result (self.new ≡ telling self.old (restoring self.old.block self.old.state base content) news.Made) }
        ensures messages { IfOk result (λ messages. messages.items ≡ phase_messages self.new) }
        ensures err { OnErr result (self.new ≡ self.old) }
    {
        let messages = self.restore(alloc, base, content)?;
        self.tell(News::Made);
        Ok(messages)
    }

    /// Ends the operation, since this member told a later stamp.
    pub fn abort(&mut self, refuser: Refuser) -> Next
        ensures next { decision self.new result ≡ aborted_by refuser }
        ensures state { self.new ≡ telling self.old self.old.state news.Nothing }
        ensures sent { SendsPhase self.new result }
        ensures never { NeverRecovers result }
    {
        self.tell(News::Nothing);
        Next::End(Answer::Aborted(Cause::Later {
            brick: refuser.brick,
            stamp: refuser.stamp,
        }))
    }

    /// Ends the operation, since this member's store is full.
    pub(crate) fn abort_full(&mut self, member: FullMember) -> Next
        ensures next { decision self.new result ≡ aborted_full member }
        ensures state { self.new ≡ telling self.old self.old.state news.Nothing }
        ensures sent { SendsPhase self.new result }
        ensures never { NeverRecovers result }
    {
        self.tell(News::Nothing);
        Next::End(Answer::Aborted(Cause::Full {
            brick: member.brick,
            live: member.live,
        }))
    }

    /// Ends the operation, since this member told a later view than the operation's.
    pub(crate) fn abort_moved(&mut self, mover: Mover) -> Next
        ensures next { decision self.new result ≡ aborted_moved mover }
        ensures state { self.new ≡ telling self.old self.old.state news.Nothing }
        ensures sent { SendsPhase self.new result }
        ensures never { NeverRecovers result }
    {
        self.tell(News::Nothing);
        Next::End(Answer::Aborted(Cause::Moved {
            brick: mover.brick,
            view: mover.view,
        }))
    }

    /// Ends the operation, since this member has dropped its versions of the view before.
    pub(crate) fn abort_gone(&mut self, dropper: Dropper) -> Next
        ensures next { decision self.new result ≡ aborted_gone dropper }
        ensures state { self.new ≡ telling self.old self.old.state news.Nothing }
        ensures sent { SendsPhase self.new result }
        ensures never { NeverRecovers result }
    {
        self.tell(News::Nothing);
        Next::End(Answer::Aborted(Cause::Gone {
            brick: dropper.brick,
        }))
    }

    /// Begins another round of ordering with a new stamp of the operation's view, while there is one and a round is left; else this member's later stamp aborts
    /// the operation. Where memory runs out nothing has changed.
    pub fn order_again(
        &mut self,
        alloc: Global,
        fresh: Option<Stamp>,
        refuser: Refuser,
    ) -> Result<Next, NoMem>
        requires phase { self.old.state.call.phase < 2 ^ 32 - 1 }
        requires orders { is_ordering self.old.state.phase ≡ true }
        requires fresh { IfSome fresh (λ stamp. stamp.view ≡ self.old.state.stamp.view) }
        ensures next { IfOk result (λ next. decision self.new next ≡ ordered_again fresh self.old.state refuser) }
        ensures sent { IfOk result (λ next. SendsPhase self.new next) }
        ensures never { IfOk result NeverRecovers }
        ensures stays { OnOk result (StaysAsked self.old self.new) }
        ensures phase { self.new.state.phase ≡ self.old.state.phase }
        ensures err { OnErr result (self.new ≡ self.old) }
    {
        let Some(stamp) = fresh else {
            return Ok(self.abort(refuser));
        };
        if self.stage.round >= MOST_ROUNDS {
            return Ok(self.abort(refuser));
        }
        let mut stage = self.next_stage(self.stage.phase);
        stage.stamp = stamp;
        stage.round += 1;
        let messages = self.begin(alloc, stage)?;
        Ok(Next::Send(messages))
    }

    /// Ends the operation with the version that it made, which the members that replied hold.
    pub fn end_made(&mut self, answer: Answer) -> Next
        ensures next { result ≡ Next.End answer }
        ensures state { self.new ≡ telling self.old self.old.state news.Stored }
    {
        self.tell(News::Stored);
        Next::End(answer)
    }

    /// Ends the operation with the version that it stored, unless a member told a later stamp. Where memory runs out nothing has
    /// changed.
    pub fn end_store(&mut self, alloc: Global) -> Result<Next, NoMem>
        ensures next { IfOk result (λ next. decision self.new next ≡ unless_refused (greatest_refuser self.old.state.counted)
            (Ends (answer_with (read_of self.old.block self.old.state.ask.op self.old.state.content)) None (Some self.old.state.stamp))) }
        ensures sent { IfOk result (λ next. SendsPhase self.new next) }
        ensures never { IfOk result NeverRecovers }
        ensures stays { OnOk result (StaysAsked self.old self.new) }
        ensures phase { self.new.state.phase ≡ self.old.state.phase }
        ensures err { OnErr result (self.new ≡ self.old) }
    {
        if let Some(refuser) = self.refuser() {
            return Ok(self.abort(refuser));
        }
        let answer = self.answer(alloc)?;
        Ok(self.end_made(answer))
    }

    /// Ends a read with what it reads of this version, at once.
    pub fn end_look(&mut self, version: Stamp, bytes: Bytes) -> Next
        ensures next { decision self.new result ≡ Ends (Answer.Data bytes) (Some version) None }
        ensures sent { SendsPhase self.new result }
        ensures state { self.new ≡ telling self.old self.old.state (news.Seen version) }
    {
        self.tell(News::Seen(version));
        Next::End(Answer::Data(bytes))
    }
}
