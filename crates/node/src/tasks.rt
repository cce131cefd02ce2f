//! All that a brick has under way: the operations that it coordinates, its proposal, its synchronisation, and its scrub.

use crate::jobs::{Followed, OpenJob, ReadTurn, start};
use crate::open_calls::fresh_stamp;
use crate::open_work::{OpenWork, Turn};
use crate::outs::{Begun, Outs, Tellings};
use crate::refusals::{has_later_time, names_quorum};
use crate::scrubs::OpenScrub;
use fab_base::{Ask, BrickId, GroupId, Members, NoMem, Refusal, StripeNo, View, ViewNo};
use layout::{Group, Layout};
use messages::{Call, Message, Messages, Packet, Reply};
use protocol::{Report, Told};
use std::alloc::Global;

/// The operations that a brick has open and its proposals, its synchronisation and its scrub, at most one of each. The scrub, and the read of the synchronisation,
/// have calls among the operations', but are none of those of which a brick may have so many open.
#[derive(Drop)]
pub struct Tasks {
    pub(crate) work: OpenWork,
    pub(crate) job: Option<OpenJob>,
    pub(crate) scrub: Option<OpenScrub>,
}

/// What a reply that counts, and tells a later view, comes to.
#[derive(Drop)]
pub enum TaskTurn {
    /// It is to an operation or the proposal, for which it comes to this.
    Work(Turn),
    /// The read of the synchronisation has counted it, and waits for more.
    CountedRead,
    /// The read of the synchronisation of this group is to end, of which this is told, and this comes after it.
    Follows(GroupId, Tellings, Followed),
    /// The scrub has counted it, and waits for more.
    CountedScrub,
    /// The scrub is to end, of which this is told and reported.
    EndsScrub(Outs),
}

impl TaskTurn {
    /// Lets it go, once what was done already was taken back.
    pub(crate) fn let_go(self) {}
}

impl Tasks {
    ghost use Rattle.std.specs.Prelude.{◌≡◌, ◌+◌, ◌-◌, ◌<◌, ◌≤◌, ◌^◌, ℕ, true, false, not, nat_eq, None, Some, is_some, option_map, IfOk, IfSome, OnErr, length, vec_len};
    ghost use Rattle.std.specs.BTreeMap.{btree_map_len};
    ghost use Rattle.fab_base.specs.declared.identities.BrickId.{BrickId};
    ghost use Rattle.fab_base.specs.Layouts as layouts;
    ghost use Rattle.messages.specs.declared.calls.Call.{Call};
    ghost use Rattle.messages.specs.declared.packets.Message.TheVariants as message;
    ghost use Rattle.messages.specs.declared.replies.Reply.{Reply};
    ghost use Rattle.quorum.specs.Quorums.{IsWithinLimits};
    ghost use Rattle.stripe_code.specs.Codes.{coding};
    ghost use Rattle.protocol.specs.Views.{kept_by};
    ghost use Rattle.protocol.specs.Nodes.{has_block, has_length, began_in, coordinator_in, is_spent, proposed_in, replied_at, scrub_refusal_in, synced_at, ticked, view_in, with_round};
    ghost use Rattle.coord_phase.specs.Operations.{PriorIsWithinLimits, group_in_view};
    ghost use Rattle.protocol.specs.Coordinators.{AreEnough};
    ghost use Rattle.coord_phase.specs.Messages.{packets_from};
    ghost use Rattle.node.specs.declared.jobs.OpenJob.{OpenJob};
    ghost use Rattle.node.specs.declared.scrubs.OpenScrub.{OpenScrub};
    ghost use Rattle.node.specs.declared.tasks.Tasks.{Tasks};
    ghost use Rattle.node.specs.Operations.{coordinator_of};
    ghost use Rattle.node.specs.States.{KeptParts, fresh_node, state_in, BeginsAs, StepsAs};
    ghost use Rattle.node.specs.Moves.{IsMoved};
    ghost use Rattle.node.specs.Jobs.{FollowsFrom, IsKeptBy, followed_step, reading_in, then_told, sent_in, with_reading};
    ghost use Rattle.node.specs.Scrubs.{IsScrubAside, ScrubsAt, scrub_coordinator_of, scrubbed_by};
    ghost use Rattle.node.specs.Tasks.{tasks_in, counts_at, step_on, AreTasksOf, AreSameTasks, IsAside, IsTaskTurn, MayFinish, ReadsAt};

    /// Nothing is under way, and nothing was since this opening of the store.
    pub(crate) fn new(alloc: Global, me: BrickId, boot: u32) -> Tasks
        ensures me { result.work.calls.me ≡ me }
        ensures boot { result.work.calls.stamps.boot ≡ boot }
        ensures state { (kept : KeptParts) → tasks_in kept result ≡ fresh_node boot kept }
        ensures of { (layout : layouts.Layout) → AreTasksOf layout result }
    {
        Tasks {
            work: OpenWork::new(alloc, me, boot),
            job: None,
            scrub: None,
        }
    }

    /// Begins an operation that is not refused, in this view of its group.
    pub(crate) fn begin(
        &mut self,
        alloc: Global,
        layout: &Layout,
        view: View,
        now: u64,
        ask: &Ask,
    ) -> Result<Begun, NoMem>
        requires room { btree_map_len self.old.work.calls.operations < 64 }
        requires known { self.old.work.calls.stamps.known + 1 < 2 ^ 64 }
        requires seq { self.old.work.calls.seq + 1 < 2 ^ 64 }
        requires limits { IsWithinLimits (group_in_view layout.now view.members ask.now.group.0).m (length view.members) }
        requires prior { PriorIsWithinLimits (group_in_view layout.now view.members ask.now.group.0).m view.number view.prior }
        requires block { has_block (group_in_view layout.now view.members ask.now.group.0).m ask.now.op ≡ true }
        requires fits { has_length (group_in_view layout.now view.members ask.now.group.0).m layout.now.block ask.now.op ≡ true }
        requires of { AreTasksOf layout.now self.old }
        ensures begun { (kept : KeptParts) → IfOk result
            (BeginsAs self.old.work.calls.me (tasks_in kept self.new) (began_in (coding layout.now) self.old.work.calls.me (tasks_in kept self.old)
            (coordinator_in (group_in_view layout.now view.members ask.now.group.0) view self.old.work.calls.me now (tasks_in kept self.old) ask.now))) }
        ensures err { OnErr result ((kept : KeptParts) → tasks_in kept self.new ≡ tasks_in kept self.old) }
        ensures same { AreSameTasks layout.now self.old self.new }
        ensures few { IfOk result (λ begun. vec_len begun.messages ≤ 32) }
    {
        self.work.calls.begin(alloc, layout, view, now, ask)
    }

    /// Begins a proposal that is not refused, of these members as the successor of the view that the brick has learnt of a group. A list that may not keep
    /// the group ends it at once, and uses up neither a call nor a round.
    ///
    /// # Errors
    ///
    /// `NoMemory` where no memory was left; then nothing has changed.
    pub(crate) fn propose(
        &mut self,
        alloc: Global,
        layout: &Layout,
        kept: &Group,
        group: GroupId,
        view: View,
        members: &[BrickId],
    ) -> Result<Outs, NoMem>
        requires round { self.old.work.proposals.rounds < 2 ^ 32 - 1 }
        requires number { view.number.0 < 2 ^ 32 - 1 }
        requires seq { self.old.work.calls.seq + 1 < 2 ^ 64 }
        requires limits { IsWithinLimits kept.now.m (length view.members) }
        ensures step { (parts : KeptParts) → (parts.learnt group.0).view ≡ view → IfOk result (StepsAs self.old.work.calls.me (tasks_in parts self.new)
            (proposed_in (coding layout.now) self.old.work.calls.me (tasks_in parts self.old) group members.now (Some kept.now))) }
        ensures few { IfOk result (λ outs. length outs.messages ≤ 32) }
        ensures err { OnErr result (self.new ≡ self.old) }
        ensures same { AreSameTasks layout.now self.old self.new }
    {
        self.work.propose(alloc, layout, kept, group, view, members)
    }

    /// Whether the brick has a synchronisation under way.
    pub(crate) fn synchronises(&self) -> bool
        ensures { result ≡ is_some self.now.job }
    {
        self.job.is_some()
    }

    /// Whether the read of the synchronisation has the call of this number.
    fn reads(&self, seq: u64) -> bool
        ensures yes { result ≡ true → ReadsAt self.now.job seq }
        ensures aside { result ≡ false → IsAside self.now.job seq }
    {
        match &self.job {
            Some(open) => open.reads(seq),
            None => false,
        }
    }

    /// Whether the brick has a scrub under way.
    pub(crate) fn scrubs(&self) -> bool
        ensures { result ≡ is_some self.now.scrub }
    {
        self.scrub.is_some()
    }

    /// Whether the scrub has the call of this number.
    fn is_scrub(&self, seq: u64) -> bool
        ensures yes { result ≡ true → ScrubsAt self.now.scrub seq }
        ensures aside { result ≡ false → IsScrubAside self.now.scrub seq }
    {
        match &self.scrub {
            Some(open) => open.has_call(seq),
            None => false,
        }
    }

    /// Whether the call of this number is that of an open operation, of the read of the synchronisation, or of the scrub.
    pub(crate) fn is_open(&self, seq: u64) -> bool
        ensures { (kept : KeptParts) → result ≡ is_some ((tasks_in kept self.now).calls seq) }
    {
        if self.is_scrub(seq) {
            return true;
        }
        if self.reads(seq) {
            return true;
        }
        self.work.calls.is_open(seq)
    }

    /// The view of the read of the synchronisation, if there is one.
    fn read_view(&self) -> Option<View>
        ensures { result ≡ option_map (λ (held : OpenJob). view_in (coordinator_of held.read)) self.now.job }
    {
        match &self.job {
            Some(open) => Some(open.view()),
            None => None,
        }
    }

    /// The view of the scrub, if there is one.
    fn scrub_view(&self) -> Option<View>
        ensures { result ≡ option_map (λ (held : OpenScrub). view_in (scrub_coordinator_of held)) self.now.scrub }
    {
        match &self.scrub {
            Some(open) => Some(open.view()),
            None => None,
        }
    }

    /// The view of the open operation of a call, of the read of the synchronisation, or of the scrub. None where there is none.
    pub(crate) fn view_of(&self, seq: u64) -> Option<View>
        ensures { (kept : KeptParts) → result ≡ option_map view_in ((tasks_in kept self.now).calls seq) }
    {
        if self.is_scrub(seq) {
            return self.scrub_view();
        }
        if self.reads(seq) {
            return self.read_view();
        }
        self.work.calls.view_of(seq)
    }

    /// Begins to synchronise this view of a group, which the brick has learnt, at this time of its clock. If all stripes are known to be kept in it already,
    /// `synced`, that ends at once: it is reported, and nothing is sent.
    ///
    /// # Errors
    ///
    /// `NoMemory` where no memory was left; then nothing has changed.
    pub(crate) fn sync(
        &mut self,
        alloc: Global,
        layout: &Layout,
        kept: &Group,
        group: GroupId,
        view: View,
        synced: bool,
        now: u64,
    ) -> Result<Outs, NoMem>
        requires idle { self.old.job ≡ None }
        requires of { AreTasksOf layout.now self.old }
        requires keeps { IsKeptBy layout.now group view (kept_by view.members kept.now) }
        ensures step { (parts : KeptParts) → parts.learnt group.0 ≡ record { view = view; synced = synced } → IfOk result (StepsAs self.old.work.calls.me
            (tasks_in parts self.new) (synced_at (coding layout.now) self.old.work.calls.me now (tasks_in parts self.old) group)) }
        ensures few { IfOk result (λ outs. length outs.messages ≤ 32) }
        ensures err { OnErr result (self.new ≡ self.old) }
        ensures same { AreSameTasks layout.now self.old self.new }
    {
        let at = self.work.calls.source(now);
        let next = start(alloc, layout, group, kept.stripes(), view, synced, at)?;
        Ok(self.take_up(group, Tellings::nothing(), next))
    }

    /// The synchronisation of a group goes on so, where its read, if it had one, has ended, of which this is told. What is sent, told and reported.
    fn take_up(&mut self, group: GroupId, told: Tellings, next: Followed) -> Outs
        requires begun { told.begun ≡ None }
        requires apart { IsScrubAside self.old.scrub (self.old.work.calls.seq + 1) }
        requires from { (layout : layouts.Layout) × FollowsFrom layout self.old.work.calls.seq group next }
        ensures step { (kept : KeptParts) → StepsAs self.old.work.calls.me (tasks_in kept self.new)
            (then_told told (followed_step self.old.work.calls.me group (tasks_in kept (record self.old { job = None })) next)) result }
        ensures few { length result.messages ≡ sent_in next }
        ensures same { (layout : layouts.Layout) → FollowsFrom layout self.old.work.calls.seq group next
            → AreSameTasks layout (record self.old { job = None }) self.new }
    {
        match next {
            Followed::Reads(messages, open) => {
                let call = open.call();
                self.work.calls.made_read(call.seq, open.time());
                self.job = Some(open);
                let begun = Some(Told::Began { call });
                Outs {
                    messages,
                    told: Tellings { begun, ..told },
                    answer: None,
                    report: None,
                }
            }
            Followed::Ends(messages, answer) => {
                self.job = None;
                Outs {
                    messages,
                    told,
                    answer: None,
                    report: Some(Report::Sync { group, answer }),
                }
            }
        }
    }

    /// Why the brick does not begin a scrub of these members of a stripe, the first reason there is, the members of its group being these: there is no such stripe;
    /// they are no distinct members, or fewer than a quorum; it has a scrub; no later time or call number is left.
    #[tactic(auto, unfolding(crate::specs::States::state_with))]
    pub(crate) fn scrub_refusal(
        &self,
        kept: &Group,
        members: &Members,
        stripe: StripeNo,
        named: &[BrickId],
    ) -> Option<Refusal>
        requires limits { IsWithinLimits kept.now.m (length members.now) }
        ensures value { (parts : KeptParts) → result ≡ scrub_refusal_in (tasks_in parts self.now) stripe named.now (Some (kept_by members.now kept.now)) }
        ensures idle { result ≡ None → self.now.scrub ≡ None }
        ensures few { result ≡ None → length named.now ≤ 32 }
        ensures enough { result ≡ None → AreEnough (kept_by members.now kept.now) (Some named.now) }
        ensures left { (parts : KeptParts) → result ≡ None → is_spent (tasks_in parts self.now) ≡ false }
    {
        if stripe.0 >= kept.stripes() {
            Some(Refusal::NoStripe)
        } else if !names_quorum(kept.m(), members, named) {
            Some(Refusal::NoQuorum)
        } else if self.scrubs() {
            Some(Refusal::Busy)
        } else if !has_later_time(self.work.calls.known_time()) || self.work.calls.is_spent() {
            Some(Refusal::Spent)
        } else {
            None
        }
    }

    /// Begins a scrub of these members of a stripe, in this view of its group, which the brick has learnt, at this time of its clock. None where no later time or no
    /// further call number is left.
    ///
    /// # Errors
    ///
    /// `NoMemory` where no memory was left; then nothing has changed.
    pub(crate) fn scrub(
        &mut self,
        alloc: Global,
        layout: &Layout,
        group: GroupId,
        view: View,
        stripe: StripeNo,
        members: Members,
        now: u64,
    ) -> Result<Option<Outs>, NoMem>
        requires idle { self.old.scrub ≡ None }
        requires of { AreTasksOf layout.now self.old }
        requires limits { IsWithinLimits (group_in_view layout.now view.members group.0).m (length view.members) }
        requires prior { PriorIsWithinLimits (group_in_view layout.now view.members group.0).m view.number view.prior }
        requires enough { AreEnough (group_in_view layout.now view.members group.0) (Some members) }
        ensures spent { (kept : KeptParts) → IfOk result (λ begun. is_some begun ≡ not (is_spent (tasks_in kept self.old))) }
        ensures step { (kept : KeptParts) → IfOk result (λ begun. IfSome begun (StepsAs self.old.work.calls.me (tasks_in kept self.new)
            (scrubbed_by (coding layout.now) (group_in_view layout.now view.members group.0) view now group stripe members self.old.work.calls.me (tasks_in kept self.old)))) }
        ensures few { IfOk result (λ begun. IfSome begun (λ outs. length outs.messages ≤ 32)) }
        ensures err { OnErr result (self.new ≡ self.old) }
        ensures same { AreSameTasks layout.now self.old self.new }
    {
        let at = self.work.calls.source(now);
        let Some((call, stamp)) = at.next(view.number) else {
            return Ok(None);
        };
        let (open, messages) = OpenScrub::begin(
            alloc, layout, view, call, group, stripe, stamp, members,
        )?;
        let call = open.call();
        self.work.calls.made_read(call.seq, stamp.time);
        self.scrub = Some(open);
        Ok(Some(Outs {
            messages,
            told: Tellings::of_begun(call),
            answer: None,
            report: None,
        }))
    }

    /// Handles a reply that teaches no view, at this time of the brick's clock: the read of the synchronisation, the scrub or the open operation of its call, or
    /// else the proposal, counts it, or leaves it out.
    ///
    /// # Errors
    ///
    /// `NoMemory` where no memory was left; then what the machine sees has not changed.
    pub(crate) fn on_reply(
        &mut self,
        alloc: Global,
        layout: &Layout,
        now: u64,
        packet: &Packet,
        call: Call,
        reply: &Reply,
    ) -> Result<Outs, NoMem>
        requires reply { packet.now.message ≡ message.Reply call reply.now }
        requires of { AreTasksOf layout.now self.old }
        ensures step { (kept : KeptParts) → IfOk result (StepsAs self.old.work.calls.me (tasks_in kept self.new)
            (replied_at (coding layout.now) self.old.work.calls.me now packet.now.from (with_round (tasks_in kept self.old) reply.now) call reply.now
            ((tasks_in kept self.old).calls call.seq))) }
        ensures few { IfOk result (λ outs. length outs.messages ≤ 96) }
        ensures err { OnErr result ((kept : KeptParts) → tasks_in kept self.new ≡ tasks_in kept self.old) }
        ensures same { AreSameTasks layout.now self.old self.new }
    {
        if self.reads(call.seq) {
            return self.on_read_reply(alloc, layout, now, packet, call, reply);
        }
        if self.is_scrub(call.seq) {
            return self.on_scrub_reply(alloc, layout, now, packet, call, reply);
        }
        self.work.on_reply(alloc, layout, now, packet, call, reply)
    }

    /// Handles a reply to the read of the synchronisation, which teaches no view, at this time of the brick's clock.
    fn on_read_reply(
        &mut self,
        alloc: Global,
        layout: &Layout,
        now: u64,
        packet: &Packet,
        call: Call,
        reply: &Reply,
    ) -> Result<Outs, NoMem>
        requires reply { packet.now.message ≡ message.Reply call reply.now }
        requires of { AreTasksOf layout.now self.old }
        requires reads { ReadsAt self.old.job call.seq }
        ensures step { (kept : KeptParts) → IfOk result (StepsAs self.old.work.calls.me (tasks_in kept self.new)
            (replied_at (coding layout.now) self.old.work.calls.me now packet.now.from (with_round (tasks_in kept self.old) reply.now) call reply.now
            ((tasks_in kept self.old).calls call.seq))) }
        ensures few { IfOk result (λ outs. length outs.messages ≤ 96) }
        ensures err { OnErr result ((kept : KeptParts) → tasks_in kept self.new ≡ tasks_in kept self.old) }
        ensures same { AreSameTasks layout.now self.old self.new }
    {
        let at = self.work.calls.source_after(now, reply);
        let Some(open) = &mut self.job else {
            unreachable!()
        };
        let group = open.group();
        let turn = open.on_reply(alloc, layout, packet.from, &packet.message, at)?;
        self.work.heard(&packet.message, reply);
        match turn {
            ReadTurn::Goes(outs, known) => {
                self.work.calls.knows(known);
                Ok(outs)
            }
            ReadTurn::Ends(told, next) => Ok(self.take_up(group, told, next)),
        }
    }

    /// Handles a reply to the scrub, which teaches no view, at this time of the brick's clock.
    fn on_scrub_reply(
        &mut self,
        alloc: Global,
        layout: &Layout,
        now: u64,
        packet: &Packet,
        call: Call,
        reply: &Reply,
    ) -> Result<Outs, NoMem>
        requires reply { packet.now.message ≡ message.Reply call reply.now }
        requires of { AreTasksOf layout.now self.old }
        requires scrubs { ScrubsAt self.old.scrub call.seq }
        ensures step { (kept : KeptParts) → IfOk result (StepsAs self.old.work.calls.me (tasks_in kept self.new)
            (replied_at (coding layout.now) self.old.work.calls.me now packet.now.from (with_round (tasks_in kept self.old) reply.now) call reply.now
            ((tasks_in kept self.old).calls call.seq))) }
        ensures few { IfOk result (λ outs. length outs.messages ≤ 96) }
        ensures err { OnErr result ((kept : KeptParts) → tasks_in kept self.new ≡ tasks_in kept self.old) }
        ensures same { AreSameTasks layout.now self.old self.new }
    {
        let at = self.work.calls.source_after(now, reply);
        let mut stamps = at.stamps;
        let Some(open) = &mut self.scrub else {
            unreachable!()
        };
        let fresh = fresh_stamp(stamps, now, open.stamp_view(), at.me);
        let outs = open.on_reply(alloc, packet.from, &packet.message, fresh, &mut stamps)?;
        self.work.heard(&packet.message, reply);
        self.work.calls.knows(stamps.known);
        if outs.report.is_none() {
            return Ok(outs);
        }
        self.scrub = None;
        Ok(outs)
    }

    /// Whether a reply counts in the read of the synchronisation, the scrub or the open operation of its call, or, if there is none, in the proposal.
    pub(crate) fn counts(&self, call: Call, packet: &Packet) -> bool
        ensures { result ≡ counts_at self.now call.seq packet.now.from packet.now.message }
    {
        if let Some(open) = &self.job
            && open.reads(call.seq)
        {
            return open.counts(packet.from, &packet.message);
        }
        if let Some(open) = &self.scrub
            && open.has_call(call.seq)
        {
            return open.counts(packet.from, &packet.message);
        }
        self.work.counts(call, packet)
    }

    /// What a reply that counts, and tells this later view with its members, comes to. Nothing has changed yet, but that an operation, a read or the scrub, if it
    /// waits for more, has counted it.
    ///
    /// # Errors
    ///
    /// `NoMemory` where no memory was left; then what the machine sees has not changed.
    pub(crate) fn hear_moved(
        &mut self,
        alloc: Global,
        layout: &Layout,
        now: u64,
        packet: &Packet,
        call: Call,
        reply: &Reply,
        view: ViewNo,
    ) -> Result<TaskTurn, NoMem>
        requires reply { packet.now.message ≡ message.Reply call reply.now }
        requires moved { IsMoved reply.now view }
        requires counts { counts_at self.old call.seq packet.now.from packet.now.message ≡ true }
        requires of { AreTasksOf layout.now self.old }
        ensures turn { IfOk result (λ turn. IsTaskTurn layout.now now packet.now.from call reply.now self.old turn self.new) }
        ensures may { IfOk result (λ turn. MayFinish turn call.seq self.new) }
        ensures err { OnErr result ((kept : KeptParts) → tasks_in kept self.new ≡ tasks_in kept self.old) }
        ensures same { AreSameTasks layout.now self.old self.new }
    {
        if self.reads(call.seq) {
            return self.hear_moved_read(alloc, layout, now, packet, call, reply, view);
        }
        if self.is_scrub(call.seq) {
            return self.hear_moved_scrub(alloc, layout, now, packet, call, reply, view);
        }
        let turn = self
            .work
            .hear_moved(alloc, layout, packet, call, reply, view)?;
        Ok(TaskTurn::Work(turn))
    }

    /// The same, of a reply to the read of the synchronisation.
    fn hear_moved_read(
        &mut self,
        alloc: Global,
        layout: &Layout,
        now: u64,
        packet: &Packet,
        call: Call,
        reply: &Reply,
        view: ViewNo,
    ) -> Result<TaskTurn, NoMem>
        requires reply { packet.now.message ≡ message.Reply call reply.now }
        requires moved { IsMoved reply.now view }
        requires counts { counts_at self.old call.seq packet.now.from packet.now.message ≡ true }
        requires of { AreTasksOf layout.now self.old }
        requires reads { ReadsAt self.old.job call.seq }
        ensures turn { IfOk result (λ turn. IsTaskTurn layout.now now packet.now.from call reply.now self.old turn self.new) }
        ensures may { IfOk result (λ turn. MayFinish turn call.seq self.new) }
        ensures err { OnErr result ((kept : KeptParts) → tasks_in kept self.new ≡ tasks_in kept self.old) }
        ensures same { AreSameTasks layout.now self.old self.new }
    {
        let at = self.work.calls.source(now);
        let Some(open) = &mut self.job else {
            unreachable!()
        };
        if let Some((told, next)) = open.moved(alloc, layout, packet.from, view, at)? {
            return Ok(TaskTurn::Follows(open.group(), told, next));
        }
        open.count(packet.from, &packet.message)?;
        Ok(TaskTurn::CountedRead)
    }

    /// The same, of a reply to the scrub.
    fn hear_moved_scrub(
        &mut self,
        alloc: Global,
        layout: &Layout,
        now: u64,
        packet: &Packet,
        call: Call,
        reply: &Reply,
        view: ViewNo,
    ) -> Result<TaskTurn, NoMem>
        requires reply { packet.now.message ≡ message.Reply call reply.now }
        requires moved { IsMoved reply.now view }
        requires counts { counts_at self.old call.seq packet.now.from packet.now.message ≡ true }
        requires of { AreTasksOf layout.now self.old }
        requires scrubs { ScrubsAt self.old.scrub call.seq }
        ensures turn { IfOk result (λ turn. IsTaskTurn layout.now now packet.now.from call reply.now self.old turn self.new) }
        ensures may { IfOk result (λ turn. MayFinish turn call.seq self.new) }
        ensures err { OnErr result ((kept : KeptParts) → tasks_in kept self.new ≡ tasks_in kept self.old) }
        ensures same { AreSameTasks layout.now self.old self.new }
    {
        let Some(open) = &mut self.scrub else {
            unreachable!()
        };
        if let Some(outs) = open.moved(alloc, packet.from, view) {
            return Ok(TaskTurn::EndsScrub(outs));
        }
        open.count(packet.from, &packet.message)?;
        Ok(TaskTurn::CountedScrub)
    }

    /// Takes back what was done already on a reply to the call of this number: nothing has changed then.
    pub(crate) fn take_back(&mut self, seq: u64, turn: &TaskTurn)
        ensures state { (layout : layouts.Layout) (now : ℕ) (from : BrickId) (call : Call) (reply : Reply) (before : Tasks) → call.seq ≡ seq
            → IsTaskTurn layout now from call reply before turn.now self.old → (kept : KeptParts) → tasks_in kept self.new ≡ tasks_in kept before }
        ensures same { (layout : layouts.Layout) (now : ℕ) (from : BrickId) (call : Call) (reply : Reply) (before : Tasks) → call.seq ≡ seq
            → IsTaskTurn layout now from call reply before turn.now self.old → AreSameTasks layout before self.old → AreSameTasks layout before self.new }
    {
        match turn {
            TaskTurn::Work(turn) => self.work.take_back(seq, turn),
            TaskTurn::CountedRead => {
                if let Some(open) = &mut self.job {
                    open.take_back();
                }
            }
            TaskTurn::CountedScrub => {
                if let Some(open) = &mut self.scrub {
                    open.take_back();
                }
            }
            TaskTurn::Follows(_, _, _) | TaskTurn::EndsScrub(_) => {}
        }
    }

    /// Does what is still to be done on a reply to the call of this number.
    pub(crate) fn finish(&mut self, alloc: Global, seq: u64, turn: TaskTurn) -> Outs
        requires may { MayFinish turn seq self.old }
        ensures step { (layout : layouts.Layout) (now : ℕ) (from : BrickId) (call : Call) (reply : Reply) (before : Tasks) → call.seq ≡ seq
            → IsTaskTurn layout now from call reply before turn self.old → (kept : KeptParts)
            → StepsAs before.work.calls.me (tasks_in kept self.new) (step_on layout now from call reply before kept) result }
        ensures few { length result.messages ≤ 64 }
        ensures same { (layout : layouts.Layout) (now : ℕ) (from : BrickId) (call : Call) (reply : Reply) (before : Tasks) → call.seq ≡ seq
            → IsTaskTurn layout now from call reply before turn self.old → AreSameTasks layout before self.old → AreSameTasks layout before self.new }
    {
        match turn {
            TaskTurn::Work(turn) => self.work.finish(alloc, seq, turn),
            TaskTurn::CountedRead | TaskTurn::CountedScrub => Outs::nothing(alloc),
            TaskTurn::Follows(group, told, next) => self.take_up(group, told, next),
            TaskTurn::EndsScrub(outs) => {
                self.scrub = None;
                outs
            }
        }
    }

    /// What all but the scrub sends again at a tick: the operations and the proposal, and last the read of the synchronisation.
    fn others_again(&self, alloc: Global) -> Result<Messages, NoMem>
        ensures packets { IfOk result (λ messages. (layout : layouts.Layout) (kept : KeptParts) → AreTasksOf layout self.now
            → packets_from self.now.work.calls.me messages.items
            ≡ ticked (coding layout) self.now.work.calls.me (with_reading (reading_in self.now.job) (state_in kept self.now.work))) }
        ensures few { IfOk result (λ messages. vec_len messages ≤ 4224) }
    {
        let mut messages = self.work.on_tick(alloc)?;
        let Some(open) = &self.job else {
            return Ok(messages);
        };
        let mut read = open.on_tick(alloc)?;
        messages.append(&mut read)?;
        Ok(messages)
    }

    /// At a tick of the brick's clock each open operation, in the order of beginning, sends its present phase again to each member without a reply that
    /// counts, then the proposal, the read of the synchronisation, and last the scrub. Each message of a later view than view 1 goes right after one that teaches its
    /// receiver that view.
    pub(crate) fn on_tick(&self, alloc: Global) -> Result<Messages, NoMem>
        ensures packets { IfOk result (λ messages. (layout : layouts.Layout) (kept : KeptParts) → AreTasksOf layout self.now
            → packets_from self.now.work.calls.me messages.items ≡ ticked (coding layout) self.now.work.calls.me (tasks_in kept self.now)) }
        ensures few { IfOk result (λ messages. vec_len messages ≤ 4288) }
    {
        let mut messages = self.others_again(alloc)?;
        let Some(open) = &self.scrub else {
            return Ok(messages);
        };
        let mut last = open.on_tick(alloc)?;
        messages.append(&mut last)?;
        Ok(messages)
    }
}
