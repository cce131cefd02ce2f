//! An operation in a phase.

ghost use Rattle.std.specs.Prelude.{◌≡◌, IfOk, length};
ghost use Rattle.quorum.specs.Quorums.{IsWithinLimits};
ghost use Rattle.coord_phase.specs.Operations.{group_in_view, call_in};
ghost use Rattle.protocol.specs.Coordinators.{looks_back, asks_each};

use crate::replies::Replies;
use fab_base::{Ask, Bytes, CallId, GroupId, Members, NoMem, Op, Stamp, View, ViewNo};
use layout::{Group, Layout};
use messages::Call;
use protocol::{Counted, Phase};
use std::alloc::Global;
use std::marker::Model;

/// How far an operation is: its stamp, how many rounds of ordering it has begun, the call of its phase, and what the phase asks.
#[derive(Clone, Copy)]
pub struct Stage {
    /// The operation's stamp.
    pub stamp: Stamp,
    /// How many rounds of ordering it has begun.
    pub round: u8,
    /// The call of its phase.
    pub call: Call,
    /// What the phase asks.
    pub phase: Phase,
}

/// The version that an operation makes its own on, and the content that it stores, or what its data block changes by while it modifies.
#[derive(Drop)]
pub(crate) struct OnBase {
    pub(crate) base: Stamp,
    pub(crate) content: Bytes,
}

/// What the last reply that an operation heard made new of a version.
#[derive(Clone, Copy)]
pub enum News {
    /// Nothing.
    Nothing,
    /// The operation makes its version: the phase that begins is the first that sends it.
    Made,
    /// A read is answered this version at once, and makes none.
    Seen(Stamp),
    /// A quorum holds the operation's version: those below it may be collected.
    Stored,
}

/// An open operation: the bytes of a block, the group of its view, the members of the view before that, those of its view that alone count, of a scrub, what is
/// asked, how far the operation is, the base that it found, where it did, the replies that count in its phase, and what is new of a version.
#[derive(Drop)]
pub struct Operation {
    pub(crate) block: u16,
    pub(crate) group: Group,
    pub(crate) prior: Members,
    pub(crate) only: Option<Members>,
    pub(crate) ask: Ask,
    pub(crate) stage: Stage,
    pub(crate) on_base: Option<OnBase>,
    pub(crate) replies: Replies,
    pub(crate) news: News,
}

impl Model for Operation {
    ghost use Rattle.std.specs.Prelude.{◌≡◌, length};
    ghost use Rattle.protocol.specs.Coordinators.{asked_group};
    ghost use Rattle.coord_phase.specs.Operations.{Operation, IsInPhase, base_in, content_in};

    ghost Value = { Operation };

    ghost view = { λ op. record {
      block = op.block;
      state = record { group = op.group; prior = op.prior; only = op.only; ask = op.ask; stamp = op.stage.stamp; round = op.stage.round; base = base_in op.on_base; content = content_in op.ask.op op.on_base; call = op.stage.call; phase = op.stage.phase; counted = op.replies.list.items };
      news = op.news;
    } };

    ghost invariant = { λ op. IsInPhase op.block
        (record { group = op.group; prior = op.prior; only = op.only; ask = op.ask; stamp = op.stage.stamp; round = op.stage.round; base = base_in op.on_base; content = content_in op.ask.op op.on_base; call = op.stage.call; phase = op.stage.phase; counted = op.replies.list.items })
        × (op.replies.tally.n ≡ length (asked_group
        (record { group = op.group; prior = op.prior; only = op.only; ask = op.ask; stamp = op.stage.stamp; round = op.stage.round; base = base_in op.on_base; content = content_in op.ask.op op.on_base; call = op.stage.call; phase = op.stage.phase; counted = op.replies.list.items })).members) };
}

/// A group of these members, within the limits of a quorum.
fn group_of_members(members: Members, m: u8, stripes: u32) -> Group
    requires { IsWithinLimits m (length members) }
    ensures { result ≡ record { members = members; m = m; stripes = stripes } }
{
    match Group::new(members, m, stripes) {
        Some(group) => group,
        None => unreachable!(),
    }
}

/// The group of this number, kept by the members of a view, which are within the limits of a quorum of its data blocks.
fn group_in_view(layout: &Layout, view: &View, group: GroupId) -> Group
    requires { IsWithinLimits (group_in_view layout.now view.now.members group.0).m (length view.now.members) }
    ensures { result ≡ group_in_view layout.now view.now.members group.0 }
{
    match layout.group(group) {
        Some(group) => group_of_members(view.members.copy(), group.m(), group.stripes()),
        None => unreachable!(),
    }
}

/// The phase of this number of a call, in a view.
fn call_in(call: CallId, number: u32, ask: &Ask, view: ViewNo) -> Call
    ensures { result ≡ call_in call number ask.now view }
{
    Call {
        boot: call.boot,
        seq: call.seq,
        phase: number,
        group: ask.group,
        view,
        stripe: ask.stripe,
    }
}

/// Whether a phase looks back: it asks the members of the view before the operation's.
pub(crate) fn looks_back(phase: Phase) -> bool
    ensures { result ≡ looks_back phase }
{
    matches!(phase, Phase::LooksBack(_))
}

/// Whether a phase is for each member whom a scrub brings to one version.
fn asks_each(phase: Phase) -> bool
    ensures { result ≡ asks_each phase }
{
    matches!(phase, Phase::Looks | Phase::Recovers | Phase::Stores)
}

/// A copy of the members that alone count, where some do.
fn copy_only(only: &Option<Members>) -> Option<Members>
    ensures { result ≡ only.now }
{
    match only {
        None => None,
        Some(members) => Some(members.copy()),
    }
}

/// A copy of the base that an operation found, if it did.
fn copy_on_base(alloc: Global, on_base: &Option<OnBase>) -> Result<Option<OnBase>, NoMem>
    ensures { IfOk result (λ made. made ≡ on_base.now) }
{
    match on_base {
        None => Ok(None),
        Some(on) => Ok(Some(OnBase {
            base: on.base,
            content: on.content.copy(alloc)?,
        })),
    }
}

impl Operation {
    ghost use Rattle.std.specs.Prelude.{◌≡◌, ◌≤◌, ◌<◌, true, false, Some, IfOk, length};
    ghost use Rattle.protocol.specs.Coordinators.{AreEnough, looks_back, asked_group, needed, block_written, forgetting, may_look_back};
    ghost use Rattle.protocol.specs.Nodes.{has_block, has_length, given_content, view_in};
    ghost use Rattle.coord_phase.specs.declared.operations.News.TheVariants as news;
    ghost use Rattle.coord_phase.specs.Operations.{StoresBlocks, PriorIsWithinLimits, MayAsk, opened_op, is_storing, seen_in, stored_in, telling};

    /// An operation in its first round, in the first phase of its call, which is this one, asked of the members of a view, whose number and that of the group's
    /// data blocks are within the limits of a quorum; so are those before them, where there is a view before. These of them alone count, at least a quorum, or all
    /// do. Its stamp is of the view, and the phase does not look back. The data block that it asks for is one of them. What it is given to write is one block, or m blocks; and where the phase makes ready to store
    /// that, it is given that.
    #[tactic(auto, using(crate::proofs::Asked::asked_own, crate::proofs::Asked::may_ask_own))]
    pub fn opened(
        alloc: Global,
        layout: &Layout,
        view: &View,
        call: CallId,
        ask: Ask,
        stamp: Stamp,
        phase: Phase,
        only: Option<Members>,
    ) -> Operation
        requires limits { IsWithinLimits (group_in_view layout.now view.now.members ask.group.0).m (length view.now.members) }
        requires prior { PriorIsWithinLimits (group_in_view layout.now view.now.members ask.group.0).m view.now.number view.now.prior }
        requires view { stamp.view ≡ view.now.number }
        requires own { looks_back phase ≡ false }
        requires enough { AreEnough (group_in_view layout.now view.now.members ask.group.0) only }
        requires fits { has_block (group_in_view layout.now view.now.members ask.group.0).m ask.op ≡ true }
        requires length { has_length (group_in_view layout.now view.now.members ask.group.0).m layout.now.block ask.op ≡ true }
        requires content { StoresBlocks layout.now.block (group_in_view layout.now view.now.members ask.group.0).m ask.op (given_content ask.op) phase }
        ensures { result ≡ opened_op layout.now view.now call ask stamp phase only }
    {
        let group = group_in_view(layout, view, ask.group);
        let replies = Replies::new(alloc, group.policy());
        let call = call_in(call, 1, &ask, view.number);
        Operation {
            block: layout.block(),
            group,
            prior: view.prior.copy(),
            only,
            ask,
            stage: Stage {
                stamp,
                round: 1,
                call,
                phase,
            },
            on_base: None,
            replies,
            news: News::Nothing,
        }
    }

    /// An equal operation, with no reply that counts, and nothing to tell.
    pub fn renewed(&self, alloc: Global) -> Result<Operation, NoMem>
        ensures { IfOk result (λ made. made ≡ telling self.now (forgetting self.now.state) news.Nothing) }
    {
        Ok(Operation {
            block: self.block,
            group: self.group.copy(),
            prior: self.prior.copy(),
            only: copy_only(&self.only),
            ask: self.ask.copy(alloc)?,
            stage: self.stage,
            on_base: copy_on_base(alloc, &self.on_base)?,
            replies: Replies::new(alloc, self.asked().policy()),
            news: News::Nothing,
        })
    }

    /// The group of the operation's view.
    pub fn group(&self) -> &Group
        ensures { result.now ≡ self.now.state.group }
    {
        &self.group
    }

    /// The view that it belongs to.
    pub fn view(&self) -> View
        ensures { result ≡ view_in self.now.state }
    {
        View {
            number: self.stage.stamp.view,
            members: self.group.members().copy(),
            prior: self.prior.copy(),
        }
    }

    /// The members that alone count of its view, of a scrub. None where all do.
    pub fn only(&self) -> Option<Members>
        ensures { result ≡ self.now.state.only }
    {
        copy_only(&self.only)
    }

    /// The group as the members keep it that a phase asks: those of the operation's view, or those before them where it looks back.
    pub(crate) fn asked_in(&self, phase: Phase) -> Group
        requires { MayAsk self.now.state.stamp.view phase }
        ensures { result ≡ asked_group (record self.now.state { phase = phase }) }
    {
        match phase {
            Phase::LooksBack(_) => {
                group_of_members(self.prior.copy(), self.group.m(), self.group.stripes())
            }
            Phase::Looks
            | Phase::LooksAt(_)
            | Phase::Orders
            | Phase::OrdersAt(_)
            | Phase::Recovers
            | Phase::Descends(_)
            | Phase::Modifies { .. }
            | Phase::Bases(_)
            | Phase::Stores => self.group.copy(),
        }
    }

    /// The group as the members keep it that the present phase asks.
    pub fn asked(&self) -> Group
        ensures { result ≡ asked_group self.now.state }
    {
        self.asked_in(self.stage.phase)
    }

    /// How many replies decide the phase, at least as many as there are data blocks: a quorum of those who are asked; or all members that alone count, where the
    /// phase is for each of them.
    pub fn needed(&self) -> usize
        ensures value { result ≡ needed self.now.state }
        ensures enough { self.now.state.group.m ≤ result }
    {
        // The call tells the proof that a quorum is as many as there are data blocks.
        let _ = self.group.policy().q();
        match &self.only {
            Some(only) if asks_each(self.stage.phase) => only.as_slice().len(),
            _ => usize::from(self.asked().policy().q()),
        }
    }

    /// What is asked.
    pub fn ask(&self) -> &Ask
        ensures { result.now ≡ self.now.state.ask }
    {
        &self.ask
    }

    /// How far the operation is. There is a view whose members its phase asks.
    pub fn stage(&self) -> Stage
        ensures asks { MayAsk self.now.state.stamp.view self.now.state.phase }
        ensures stage { result ≡ record { stamp = self.now.state.stamp; round = self.now.state.round; call = self.now.state.call; phase = self.now.state.phase } }
    {
        self.stage
    }

    /// Whether the operation has a view before its own, and has not looked back yet.
    pub fn may_look_back(&self) -> bool
        ensures value { result ≡ may_look_back self.now.state }
        ensures asks { result ≡ true → 1 < self.now.state.stamp.view.0 }
    {
        self.stage.stamp.view.0 > 1 && !looks_back(self.stage.phase)
    }

    /// Whether the phase has members keep the operation's version: only then may a reply end it with a version that may be collected.
    pub fn is_storing(&self) -> bool
        ensures { result ≡ is_storing self.now.state.phase }
    {
        matches!(self.stage.phase, Phase::Modifies { .. } | Phase::Stores)
    }

    /// The version that it makes its own on, if it found one.
    pub fn base(&self) -> Option<Stamp>
        ensures { result ≡ self.now.state.base }
    {
        match &self.on_base {
            Some(on) => Some(on.base),
            None => None,
        }
    }

    /// What the operation stores, or what its data block changes by while it modifies: what it made of its base, where it found one, and
    /// else what it was given.
    pub fn stored(&self) -> &[u8]
        ensures value { result.now ≡ self.now.state.content }
        ensures long { StoresBlocks self.now.block self.now.state.group.m self.now.state.ask.op self.now.state.content self.now.state.phase }
    {
        match (&self.on_base, &self.ask.op) {
            (Some(on), _) => on.content.as_slice(),
            (None, Op::WriteStripe(bytes)) => bytes.as_slice(),
            (None, Op::ReadBlock(_) | Op::WriteBlock(_, _) | Op::ReadStripe) => &[],
        }
    }

    /// The bytes that a write of a data block writes.
    pub(crate) fn block_written(&self) -> &[u8]
        ensures value { result.now ≡ block_written self.now.state.ask.op }
        ensures long { StoresBlocks self.now.block self.now.state.group.m self.now.state.ask.op self.now.state.content self.now.state.phase }
    {
        match &self.ask.op {
            Op::WriteBlock(_, bytes) => bytes.as_slice(),
            Op::ReadBlock(_) | Op::ReadStripe | Op::WriteStripe(_) => &[],
        }
    }

    /// The replies that count in the phase, in the order in which they came.
    pub fn counted(&self) -> &[Counted]
        ensures { result.now ≡ self.now.state.counted }
    {
        self.replies.as_slice()
    }

    /// What the last reply made new of a version.
    pub fn news(&self) -> News
        ensures { result ≡ self.now.news }
    {
        self.news
    }

    /// The version that a read was answered at once, if it was.
    pub fn seen(&self) -> Option<Stamp>
        ensures { result ≡ seen_in self.now.news }
    {
        match self.news {
            News::Seen(version) => Some(version),
            News::Nothing | News::Made | News::Stored => None,
        }
    }

    /// The version that it stored, and that may be collected: none before the operation is answered.
    pub fn made(&self) -> Option<Stamp>
        ensures { result ≡ stored_in self.now.news self.now.state.stamp }
    {
        match self.news {
            News::Stored => Some(self.stage.stamp),
            News::Nothing | News::Made | News::Seen(_) => None,
        }
    }
}
