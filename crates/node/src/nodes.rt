//! A brick's steps.

ghost use Rattle.std.specs.Prelude.{◌≡◌, ◌≢◌, ◌⊎◌, ◌+◌, ◌-◌, ◌^◌, ◌<◌, ◌≤◌, ℕ, List, true, false, Some, None, is_some, option_map, Ok, Err, IfOk, IfErr, OnOk, OnErr, length, vec_len};
ghost use Rattle.std.specs.Option.{SomeIff};
ghost use Rattle.fab_disk.specs.Disk.{IsUntouched, KeepsRoom};
ghost use Rattle.fab_disk.specs.Changing.{Stands};
ghost use Rattle.frame_store.specs.Images.{IsNoStore};
ghost use Rattle.brick_store.specs.Bricks.{Brick};
ghost use Rattle.version_log.specs.Versions.{Version};
ghost use Rattle.brick_state.specs.States.{StateOf};
ghost use Rattle.brick_store.specs.Images.{IsFound};
ghost use Rattle.brick_store.specs.Openings.{IsCounted, IsListedOnOpening, IsWornOut};
ghost use Rattle.protocol.specs.Nodes as machine;
ghost use Rattle.protocol.specs.Nodes.{view_at, refusal_of, invoked, heard, node_learnt, proposal_refusal, proposed, scrub_refusal, scrubbed_at, sync_refusal, synced_at, view_in, received, absorbed, ticked, restarted};
ghost use Rattle.protocol.specs.Proposals.{Proposal};
ghost use Rattle.protocol.specs.Views.{view_told};
ghost use Rattle.fab_base.specs.Layouts.{Group, group_of};
ghost use Rattle.messages.specs.declared.replies.Reply as told;
ghost use Rattle.messages.specs.declared.packets.Message.TheVariants as message;
ghost use Rattle.stripe_code.specs.Codes.{coding};
ghost use Rattle.replica.specs.Parts.{ListsStand, part_seen};
ghost use Rattle.replica.specs.Reactions.{member_step};
ghost use Rattle.replica.specs.Calls.{message_append, message_calls};
ghost use Rattle.coord_phase.specs.Messages.{packets_from};
ghost use Rattle.node.specs.Calls.{packet_append, packet_calls};
ghost use Rattle.node.specs.Ends.{end_of, IsShown, StepChange};
ghost use Rattle.node.specs.Faults.{halted_after, IsAnswerWhileRunning, RefusesAs};
ghost use Rattle.node.specs.States.{BeginsAs, StepsAs};
ghost use Rattle.node.specs.Openings.{OpensBrick, disk_in, end_in};
ghost use Rattle.node.specs.Running.{shape_at, state_of, IsKept, ImageShows, IsSameBrick};
ghost use Rattle.node.specs.Teaching.{is_taught, Teaches};

use crate::faults::NodeFault;
use crate::learnt_views::{do_lists_stand, is_synced, learnt_number, learnt_view};
use crate::outs::{Begun, Outs};
use crate::sending::answer_messages;
use crate::tasks::Tasks;
use crate::teaching::{is_view, view_told};
use brick_store::{BrickStore, OpenFault, State};
use fab_base::{Ask, BrickId, GroupId, Members, Refusal, StripeNo, View};
use fab_disk::{Armed, Disk, Plan};
use layout::Layout;
use messages::{Call, Message, Messages, Packet, Reply};
use std::alloc::Global;
use std::marker::Model;

/// A running brick: its parts of stripes, which its disk keeps, the operations that it coordinates, its proposal of a view's successor, its synchronisation of a
/// view, and its scrub of a stripe.
///
/// A clause sees the layout, the brick's number, the operations that it has open, its proposal, its synchronisation, its scrub, and its store.
pub struct Node<D: Disk> {
    alloc: Global,
    layout: Layout,
    tasks: Tasks,
    store: BrickStore<D>,
}

impl<D: Disk> Model for Node<D> {
    ghost use Rattle.node.specs.Running.{Running, running, IsBrickOf};

    ghost Value = { Running D };

    ghost view = { λ n. running n.layout n.tasks n.store };

    ghost invariant = { λ n. IsBrickOf n.layout n.store.shape n.store.state n.tasks };
}

impl<D: Disk + Drop> Drop for Node<D> {
    // Written out, it is proved once: a derived one is proved anew, with that of each part, in each crate above that lets a node go.
    fn drop(self) {
        let Self {
            alloc: _,
            layout: _,
            tasks: _,
            store: _,
        } = self;
    }
}

impl<D: Disk> Node<D> {
    /// Opens the store that a disk holds for a brick of a layout: the brick runs, has made no call, and knows no time. Its calls of the
    /// disk are those of [`open_store`](brick_store::open_store).
    ///
    /// # Errors
    ///
    /// Each hands the disk back, and is a fault of [`open_store`](brick_store::open_store). [`OpenFault::NotAStore`] also where the store
    /// was opened, and keeps a list of members of a group of the layout that may not keep this: of the view that it has learnt, or of the
    /// one before that, or the list that it has accepted.
    pub fn start(
        alloc: Global,
        layout: Layout,
        me: BrickId,
        disk: D,
    ) -> Result<Node<D>, (OpenFault, D)>
        ensures layout { IfOk result (λ node. node.layout ≡ layout) }
        ensures me { IfOk result (λ node. node.me ≡ me) }
        ensures runs { IfOk result (λ node. node.brick.halted ≡ false) }
        ensures state { IfOk result (λ node. D.tells → (before : machine.Node) → ImageShows layout me before (D.seen disk)
            → state_of node ≡ restarted 1 before) }
        // There was a store that was not worn, and it is the one that was counted.
        ensures found { IfOk result (λ node. D.tells → IsCounted (shape_at layout me) (D.seen disk) node.brick.state) }
        ensures stands { IfOk result (λ node. D.tells → Stands D.Disk (ImageShows layout me (state_of node)) node.brick.disk) }
        // Its list is the one that the disk held, with the count appended.
        ensures listed { IfOk result (λ node. D.tells → IsListedOnOpening (shape_at layout me) (D.seen disk) (state_of node).live node.brick.listed) }
        // What each moment leaves, how many calls it makes, and what is left where it is cut short.
        ensures opens { OpensBrick D.Disk layout me disk (disk_in result) (end_in result) }
        // There is no store, and nothing has changed; or its store keeps a list that may not keep its group.
        ensures not_a_store { IfErr result (λ e. e.0 ≡ OpenFault.NotAStore → D.tells
            → (IsNoStore (shape_at layout me) (D.seen disk) × IsUntouched D.seen D.may_leave D.moment D.left_since disk e.1)
            ⊎ ((st : StateOf Version) × IsFound (shape_at layout me) st (D.seen disk) × (ListsStand layout st → ⊥))) }
        ensures worn { IfErr result (λ e. e.0 ≡ OpenFault.Worn → D.tells → IsWornOut (shape_at layout me) (D.seen disk)) }
    {
        let store = match brick_store::open_store(
            alloc,
            disk,
            me,
            layout.block(),
            layout.records(),
        ) {
            Ok(store) => store,
            Err(refused) => return Err(refused),
        };
        // By such a list the brick would not know whom it serves.
        if !do_lists_stand(&store, &layout) {
            return Err((OpenFault::NotAStore, store.into_disk()));
        }
        let tasks = Tasks::new(alloc, me, store.boot());
        Ok(Node {
            alloc,
            layout,
            tasks,
            store,
        })
    }

    /// Begins an operation in the view that the brick has learnt of its group, at this time of the brick's clock.
    ///
    /// # Errors
    ///
    /// `Halted` exactly where an earlier call answered `Disk`. `Refused` exactly where the brick does not begin it, with the first reason
    /// there is: there is no such group or stripe; no such data block; the bytes are not one block, or m blocks; 64 operations are open;
    /// no later time or call number is left. `NoMemory` where no memory was left.
    pub fn invoke(&mut self, now: u64, ask: &Ask) -> Result<Begun, NodeFault>
        ensures refused { RefusesAs result (refusal_of self.old.layout (state_of self.old) ask.now) }
        ensures begun { IfOk result (BeginsAs self.old.me (state_of self.new) (invoked (coding self.old.layout) self.old.me now (state_of self.old) ask.now)) }
        ensures err { OnErr result (state_of self.new ≡ state_of self.old) }
        ensures few { IfOk result (λ begun. vec_len begun.messages ≤ 32) }
        ensures same { IsSameBrick self.old self.new }
        ensures brick { self.new.brick ≡ self.old.brick }
        ensures halted { self.old.brick.halted ≡ true → result ≡ Err NodeFault.Halted }
        ensures only_halted { result ≡ Err NodeFault.Halted → self.old.brick.halted ≡ true }
        ensures not_disk { result ≢ Err NodeFault.Disk }
    {
        if self.is_halted() {
            return Err(NodeFault::Halted);
        }
        let group = match self.tasks.work.calls.admit(&self.layout, ask) {
            Ok(group) => group,
            Err(refusal) => return Err(NodeFault::Refused(refusal)),
        };
        let view = learnt_view(&self.store, ask.group, group);
        Ok(self.tasks.begin(self.alloc, &self.layout, view, now, ask)?)
    }

    /// Begins a proposal of these members as the successor of the view that the brick has learnt of a group: what it sends. A list that may
    /// not keep the group ends it at once: that is reported, and nothing is sent. A list may keep it exactly where it is m to 32 distinct
    /// bricks of the disk, by the group's m.
    ///
    /// # Errors
    ///
    /// `Halted` exactly where an earlier call answered `Disk`. `Refused` exactly where the brick does not begin it, with the first reason
    /// there is: there is no such group; it has a proposal; no greater round of a ballot, no later view or no later call has a number.
    /// `NoMemory` where no memory was left.
    pub fn propose(&mut self, group: GroupId, members: &[BrickId]) -> Result<Outs, NodeFault>
        ensures refused { RefusesAs result (proposal_refusal self.old.layout (state_of self.old) group.0) }
        ensures step { IfOk result (StepsAs self.old.me (state_of self.new) (proposed (coding self.old.layout) self.old.me (state_of self.old) group members.now)) }
        ensures err { OnErr result (state_of self.new ≡ state_of self.old) }
        ensures few { IfOk result (λ outs. length outs.messages ≤ 32) }
        ensures same { IsSameBrick self.old self.new }
        ensures brick { self.new.brick ≡ self.old.brick }
        ensures halted { self.old.brick.halted ≡ true → result ≡ Err NodeFault.Halted }
        ensures only_halted { result ≡ Err NodeFault.Halted → self.old.brick.halted ≡ true }
        ensures not_disk { result ≢ Err NodeFault.Disk }
    {
        if self.is_halted() {
            return Err(NodeFault::Halted);
        }
        let Some(kept) = self.layout.group(group) else {
            return Err(NodeFault::Refused(Refusal::NoStripe));
        };
        let view = learnt_view(&self.store, group, kept);
        if let Some(refusal) = self.tasks.work.proposal_refusal(view.number) {
            return Err(NodeFault::Refused(refusal));
        }
        Ok(
            self.tasks
                .propose(self.alloc, &self.layout, kept, group, view, members)?,
        )
    }

    /// Begins to synchronise the view that the brick has learnt of a group, at this time of its clock: it reads each stripe in that, and tells all bricks in the
    /// end. It ends at once if all stripes are known to be kept in the view already, or if no later time or no further call is left for the first read: the end is
    /// reported, and nothing is sent.
    ///
    /// # Errors
    ///
    /// `Halted` exactly where an earlier call answered `Disk`. `Refused` exactly where the brick does not begin it, with the first reason
    /// there is: there is no such group; it has a synchronisation. `NoMemory` where no memory was left.
    pub fn sync(&mut self, now: u64, group: GroupId) -> Result<Outs, NodeFault>
        ensures refused { RefusesAs result (sync_refusal self.old.layout (state_of self.old) group.0) }
        ensures step { IfOk result (StepsAs self.old.me (state_of self.new) (synced_at (coding self.old.layout) self.old.me now (state_of self.old) group)) }
        ensures err { OnErr result (state_of self.new ≡ state_of self.old) }
        ensures few { IfOk result (λ outs. length outs.messages ≤ 32) }
        ensures same { IsSameBrick self.old self.new }
        ensures brick { self.new.brick ≡ self.old.brick }
        ensures halted { self.old.brick.halted ≡ true → result ≡ Err NodeFault.Halted }
        ensures only_halted { result ≡ Err NodeFault.Halted → self.old.brick.halted ≡ true }
        ensures not_disk { result ≢ Err NodeFault.Disk }
    {
        if self.is_halted() {
            return Err(NodeFault::Halted);
        }
        let Some(kept) = self.layout.group(group) else {
            return Err(NodeFault::Refused(Refusal::NoStripe));
        };
        if self.tasks.synchronises() {
            return Err(NodeFault::Refused(Refusal::Busy));
        }
        let view = learnt_view(&self.store, group, kept);
        let synced = is_synced(&self.store, group);
        Ok(
            self.tasks
                .sync(self.alloc, &self.layout, kept, group, view, synced, now)?,
        )
    }

    /// Begins to scrub a stripe, in the view that the brick has learnt of its group, at this time of its clock: these members are brought to one version, and it is
    /// reported in the end who of them lagged.
    ///
    /// # Errors
    ///
    /// `Halted` exactly where an earlier call answered `Disk`. `Refused` exactly where the brick does not begin it, with the first reason
    /// there is: there is no such group or stripe; these are no distinct members of the view, or fewer than a quorum of it; it has a scrub; no later time or call
    /// number is left. `NoMemory` where no memory was left.
    pub fn scrub(
        &mut self,
        now: u64,
        group: GroupId,
        stripe: StripeNo,
        members: &[BrickId],
    ) -> Result<Outs, NodeFault>
        ensures refused { RefusesAs result (scrub_refusal self.old.layout (state_of self.old) group stripe members.now) }
        ensures step { IfOk result (StepsAs self.old.me (state_of self.new) (scrubbed_at (coding self.old.layout) self.old.me now (state_of self.old) group stripe members.now)) }
        ensures err { OnErr result (state_of self.new ≡ state_of self.old) }
        ensures few { IfOk result (λ outs. length outs.messages ≤ 32) }
        ensures same { IsSameBrick self.old self.new }
        ensures brick { self.new.brick ≡ self.old.brick }
        ensures halted { self.old.brick.halted ≡ true → result ≡ Err NodeFault.Halted }
        ensures only_halted { result ≡ Err NodeFault.Halted → self.old.brick.halted ≡ true }
        ensures not_disk { result ≢ Err NodeFault.Disk }
    {
        if self.is_halted() {
            return Err(NodeFault::Halted);
        }
        let Some(kept) = self.layout.group(group) else {
            return Err(NodeFault::Refused(Refusal::NoStripe));
        };
        let view = learnt_view(&self.store, group, kept);
        if let Some(refusal) = self
            .tasks
            .scrub_refusal(kept, &view.members, stripe, members)
        {
            return Err(NodeFault::Refused(refusal));
        }
        let Some(members) = Members::new(members) else {
            unreachable!()
        };
        match self.tasks.scrub(self.alloc, &self.layout, group, view, stripe, members, now)? {
            Some(outs) => Ok(outs),
            None => unreachable!(),
        }
    }

    /// At a tick of the brick's clock each open operation, in the order of beginning, sends its present phase again to each member
    /// without a reply that counts, then the proposal, the read of the synchronisation, and last the scrub. Each message of a later view than view 1 goes right after one
    /// that teaches its receiver that view.
    ///
    /// # Errors
    ///
    /// `Halted` exactly where an earlier call answered `Disk`. `NoMemory` where no memory was left.
    pub fn on_tick(&self) -> Result<Messages, NodeFault>
        ensures packets { IfOk result (λ messages. packets_from self.now.me messages.items ≡ ticked (coding self.now.layout) self.now.me (state_of self.now)) }
        ensures few { IfOk result (λ messages. vec_len messages ≤ 4288) }
        ensures halted { self.now.brick.halted ≡ true → result ≡ Err NodeFault.Halted }
        ensures only { OnErr result ((result ≡ Err NodeFault.Halted × (self.now.brick.halted ≡ true)) ⊎ (result ≡ Err NodeFault.NoMemory)) }
    {
        if self.is_halted() {
            return Err(NodeFault::Halted);
        }
        Ok(self.tasks.on_tick(self.alloc)?)
    }

    /// Handles a message, at this time of the brick's clock. What it keeps of a request, a view that it learns, and that all stripes are kept in that, is on
    /// the disk before it answers, by the calls of [`replica::handle`]; a message that changes nothing that is kept makes no call of the disk. A reply makes
    /// some where it counts and tells a later view with its members, which the brick learns then.
    ///
    /// # Errors
    ///
    /// `Halted` exactly where an earlier call answered `Disk`. `Disk` where the disk failed: the brick is halted. `NoMemory` where no
    /// memory was left. What the machine sees of the brick has not changed then.
    #[tactic(auto, unfolding(protocol::specs::Nodes::received, protocol::specs::Nodes::requested, protocol::specs::Nodes::absorbed))]
    pub fn on_message(&mut self, now: u64, packet: &Packet) -> Result<Outs, NodeFault>
        ensures step { IfOk result (StepsAs self.old.me (state_of self.new) (received (coding self.old.layout) self.old.me now (state_of self.old) packet.now)) }
        ensures few { IfOk result (λ outs. length outs.messages ≤ 96) }
        ensures err { OnErr result (state_of self.new ≡ state_of self.old) }
        ensures same { IsSameBrick self.old self.new }
        // A message that makes no call of the disk changes nothing that is kept, and does not touch the disk. None is made where what is kept stays as it is.
        ensures still { packet_calls self.old.layout self.old.me (state_of self.old) packet.now self.old.brick.listed ≡ 0 → OnOk result
            ((self.new.brick.state ≡ self.old.brick.state) × IsUntouched D.seen D.may_leave D.moment D.left_since self.old.brick.disk self.new.brick.disk) }
        // At each moment each image shows the brick as it was, or with what the message makes it keep. What is appended is what keeps that.
        ensures change { StepChange D.Disk (packet_append self.old.layout self.old.me (state_of self.old) packet.now)
            (absorbed (coding self.old.layout) self.old.me (state_of self.old) packet.now) self.old self.new (end_of result) }
        ensures halted { self.old.brick.halted ≡ true → result ≡ Err NodeFault.Halted }
        ensures only_halted { result ≡ Err NodeFault.Halted → self.old.brick.halted ≡ true }
        ensures halts { self.new.brick.halted ≡ halted_after self.old.brick.halted result }
        ensures not_refused { (reason : Refusal) → result ≢ Err (NodeFault.Refused reason) }
    {
        if self.is_halted() {
            return Err(NodeFault::Halted);
        }
        match &packet.message {
            Message::Request(_, _) => self.serve(packet.from, &packet.message),
            Message::Learn { .. } => self.serve(packet.from, &packet.message),
            Message::Synced { .. } => self.serve(packet.from, &packet.message),
            Message::Reply(call, reply) => self.on_reply(now, packet, *call, reply),
            Message::Client(_) | Message::ClientReply { .. } => Ok(Outs::nothing(self.alloc)),
        }
    }

    /// Serves a message as a member of a group: it handles a request, learns a later view that it is taught, and notes that all stripes are kept in the view
    /// that it has learnt. A brick ignores a void request, and each other message.
    fn serve(&mut self, from: BrickId, message: &Message) -> Result<Outs, NodeFault>
        requires runs { self.old.brick.halted ≡ false }
        requires stands { IsShown D.Disk self.old }
        ensures step { IfOk result (StepsAs self.old.me (state_of self.new)
            (member_step self.old.layout self.old.me from (state_of self.old) message.now)) }
        ensures few { IfOk result (λ outs. length outs.messages ≤ 96) }
        ensures err { OnErr result (state_of self.new ≡ state_of self.old) }
        ensures same { IsSameBrick self.old self.new }
        ensures still { message_calls self.old.layout self.old.me from (shape_at self.old.layout self.old.me) self.old.brick.listed (state_of self.old) message.now ≡ 0
            → OnOk result
            ((self.new.brick.state ≡ self.old.brick.state) × IsUntouched D.seen D.may_leave D.moment D.left_since self.old.brick.disk self.new.brick.disk) }
        ensures change { StepChange D.Disk (message_append self.old.layout self.old.me from (state_of self.old) message.now)
            (member_step self.old.layout self.old.me from (state_of self.old) message.now).node self.old self.new (end_of result) }
        ensures answer { IsAnswerWhileRunning self.new.brick.halted result }
    {
        // The answer has its room before anything is kept: after that nothing can fail.
        let Ok(room) = Vec::with_capacity(self.alloc, 1) else {
            return Err(NodeFault::NoMemory);
        };
        let answer = replica::handle(self.alloc, &mut self.store, &self.layout, from, message)?;
        Ok(Outs::sending(answer_messages(room, from, answer)))
    }

    /// Handles a reply, at this time of the brick's clock: the operation of its call, or else the proposal, counts it, or leaves it out.
    /// Where it counts and tells a later view with its members, the brick learns that.
    #[tactic(auto, unfolding(protocol::specs::Nodes::received, protocol::specs::Nodes::absorbed))]
    fn on_reply(
        &mut self,
        now: u64,
        packet: &Packet,
        call: Call,
        reply: &Reply,
    ) -> Result<Outs, NodeFault>
        requires reply { packet.now.message ≡ message.Reply call reply.now }
        requires runs { self.old.brick.halted ≡ false }
        requires stands { IsShown D.Disk self.old }
        ensures step { IfOk result (StepsAs self.old.me (state_of self.new) (received (coding self.old.layout) self.old.me now (state_of self.old) packet.now)) }
        ensures few { IfOk result (λ outs. length outs.messages ≤ 96) }
        ensures err { OnErr result (state_of self.new ≡ state_of self.old) }
        ensures same { IsSameBrick self.old self.new }
        ensures still { packet_calls self.old.layout self.old.me (state_of self.old) packet.now self.old.brick.listed ≡ 0 → OnOk result
            ((self.new.brick.state ≡ self.old.brick.state) × IsUntouched D.seen D.may_leave D.moment D.left_since self.old.brick.disk self.new.brick.disk) }
        ensures change { StepChange D.Disk (packet_append self.old.layout self.old.me (state_of self.old) packet.now)
            (absorbed (coding self.old.layout) self.old.me (state_of self.old) packet.now) self.old self.new (end_of result) }
        ensures answer { IsAnswerWhileRunning self.new.brick.halted result }
    {
        let Some(view) = view_told(reply) else {
            return self.count(now, packet, call, reply);
        };
        if !self.is_taught_by(packet, call, &view) {
            return Ok(Outs::nothing(self.alloc));
        }
        self.on_moved(now, packet, call, reply, view)
    }

    /// Handles a reply that teaches no view, at this time of the brick's clock: the operation of its call, or else the proposal, counts it,
    /// or leaves it out.
    fn count(
        &mut self,
        now: u64,
        packet: &Packet,
        call: Call,
        reply: &Reply,
    ) -> Result<Outs, NodeFault>
        requires reply { packet.now.message ≡ message.Reply call reply.now }
        requires untaught { view_told reply.now ≡ None }
        ensures step { IfOk result (StepsAs self.old.me (state_of self.new) (heard (coding self.old.layout) self.old.me now packet.now.from
            (state_of self.old) call reply.now)) }
        ensures few { IfOk result (λ outs. length outs.messages ≤ 96) }
        ensures err { OnErr result (state_of self.new ≡ state_of self.old) }
        ensures same { IsSameBrick self.old self.new }
        ensures brick { self.new.brick ≡ self.old.brick }
        ensures shown { (image : List ℕ) → ImageShows self.old.layout self.old.me (state_of self.old) image → ImageShows self.old.layout self.old.me
            (state_of self.new) image }
        ensures only { OnErr result (result ≡ Err NodeFault.NoMemory) }
    {
        Ok(
            self.tasks
                .on_reply(self.alloc, &self.layout, now, packet, call, reply)?,
        )
    }

    /// Whether a reply that tells this later view teaches it: the view's lists may keep the group, and the reply counts.
    fn is_taught_by(&self, packet: &Packet, call: Call, view: &View) -> bool
        ensures { (reply : told.Reply) → packet.now.message ≡ message.Reply call reply → view_told reply ≡ Some view.now
            → result ≡ is_taught self.now.layout (state_of self.now) packet.now.from call reply }
    {
        let Some(group) = self.layout.group(call.group) else {
            return false;
        };
        is_view(group.m(), self.layout.bricks(), view) && self.tasks.counts(call, packet)
    }

    /// Handles a reply that counts and teaches a view: it counts, and the brick learns the view.
    fn on_moved(
        &mut self,
        now: u64,
        packet: &Packet,
        call: Call,
        reply: &Reply,
        view: View,
    ) -> Result<Outs, NodeFault>
        requires reply { packet.now.message ≡ message.Reply call reply.now }
        requires teaches { Teaches self.old.layout (state_of self.old) packet.now.from call reply.now view }
        requires runs { self.old.brick.halted ≡ false }
        requires stands { IsShown D.Disk self.old }
        ensures step { IfOk result (StepsAs self.old.me (state_of self.new) (heard (coding self.old.layout) self.old.me now packet.now.from
            (state_of self.old) call reply.now)) }
        ensures few { IfOk result (λ outs. length outs.messages ≤ 96) }
        ensures err { OnErr result (state_of self.new ≡ state_of self.old) }
        ensures same { IsSameBrick self.old self.new }
        ensures still { message_calls self.old.layout self.old.me self.old.me (shape_at self.old.layout self.old.me) self.old.brick.listed (state_of self.old)
            (message.Learn call.group view) ≡ 0 → OnOk result
            ((self.new.brick.state ≡ self.old.brick.state) × IsUntouched D.seen D.may_leave D.moment D.left_since self.old.brick.disk self.new.brick.disk) }
        ensures change { StepChange D.Disk (message_append self.old.layout self.old.me self.old.me (state_of self.old) (message.Learn call.group view))
            (node_learnt self.old.layout (state_of self.old) call.group view) self.old self.new (end_of result) }
        ensures answer { IsAnswerWhileRunning self.new.brick.halted result }
    {
        // All else that can be refused comes before the view is learnt, and is taken back where that is refused.
        let (alloc, seq) = (self.alloc, call.seq);
        let turn = self
            .tasks
            .hear_moved(alloc, &self.layout, now, packet, call, reply, view.number)?;
        match replica::learn(&mut self.store, &self.layout, call.group, &view) {
            Ok(()) => Ok(self.tasks.finish(alloc, seq, turn)),
            Err(fault) => {
                self.tasks.take_back(seq, &turn);
                turn.let_go();
                Err(NodeFault::from(fault))
            }
        }
    }

    /// Gives the disk back. Where the brick is not halted, the disk shows it, and so does whatever a crash leaves.
    pub fn into_disk(self) -> D
        ensures disk { result ≡ self.brick.disk }
        ensures stands { D.tells → self.brick.halted ≡ false → Stands D.Disk (ImageShows self.layout self.me (state_of self)) result }
    {
        let Node {
            alloc: _,
            layout: _,
            tasks: _,
            store,
        } = self;
        store.into_disk()
    }
}

/// What a brick tells of itself. No look-up needs memory.
impl<D: Disk> Node<D> {
    /// Whether a call of this brick answered [`NodeFault::Disk`]. While none did, a crash leaves only what shows the brick.
    pub fn is_halted(&self) -> bool
        ensures value { result ≡ self.now.brick.halted }
        ensures stands { IsShown D.Disk self.now }
        ensures kept { IsKept self.now.layout self.now.brick.state (state_of self.now) }
        ensures shape { self.now.brick.shape ≡ shape_at self.now.layout self.now.me }
    {
        // The clauses speak of the whole brick, so all of it is looked at.
        let _ = &self.tasks;
        self.store.is_halted()
    }

    /// The layout that it is a brick of.
    pub fn layout(&self) -> &Layout
        ensures { result.now ≡ self.now.layout }
    {
        &self.layout
    }

    /// The brick's number.
    pub fn me(&self) -> BrickId
        ensures { result ≡ self.now.me }
    {
        self.tasks.work.calls.me()
    }

    /// The store.
    pub fn store(&self) -> &BrickStore<D>
        ensures { result.now ≡ self.now.brick }
    {
        &self.store
    }

    /// The brick's part of a stripe in the view that it has learnt: its order stamp, and its log.
    pub fn log(&self, group: GroupId, stripe: StripeNo) -> State<'_>
        ensures { let part = (state_of self.now).replicas group.0 (view_at (state_of self.now) group.0) stripe.0 in part_seen result part.from_start ≡ part }
    {
        let view = learnt_number(&self.store, group);
        self.store.state(group, view, stripe)
    }

    /// The view that the brick has learnt of a group. None exactly where the layout has no such group.
    pub fn learnt(&self, group: GroupId) -> Option<View>
        ensures { result ≡ option_map (λ (kept : Group). ((state_of self.now).learnt group.0).view) (group_of self.now.layout group.0) }
    {
        let kept = self.layout.group(group)?;
        Some(learnt_view(&self.store, group, kept))
    }

    /// The group a successor of whose view the brick proposes, if it has a proposal.
    #[tactic(auto, unfolding(crate::specs::Running::state_of))]
    pub fn proposing(&self) -> Option<GroupId>
        ensures { result ≡ option_map (λ (p : Proposal). p.call.group) (state_of self.now).proposal }
    {
        self.tasks.work.proposals.group()
    }

    /// The number of the brick's next call. None where no number is left.
    #[tactic(auto, unfolding(crate::specs::Running::state_of))]
    pub fn next_seq(&self) -> Option<u64>
        ensures { SomeIff result ((state_of self.now).seq + 1 < 2 ^ 64) ((state_of self.now).seq + 1) }
    {
        self.tasks.work.calls.next_seq()
    }

    /// Whether the operation of the call of a number is open, or the call is that of the synchronisation's read or of the scrub: it began since the brick started, and
    /// has not ended.
    #[tactic(auto, unfolding(crate::specs::Running::state_of))]
    pub fn is_open(&self, seq: u64) -> bool
        ensures { result ≡ is_some ((state_of self.now).calls seq) }
    {
        self.tasks.is_open(seq)
    }

    /// The view of the open operation of the call of a number, of the synchronisation's read, or of the scrub.
    pub fn view_of(&self, seq: u64) -> Option<View>
        ensures { result ≡ option_map view_in ((state_of self.now).calls seq) }
    {
        self.tasks.view_of(seq)
    }

    /// How often the brick's store was opened.
    #[tactic(auto, unfolding(crate::specs::Running::state_of))]
    pub fn boot(&self) -> u32
        ensures { result ≡ (state_of self.now).boot }
    {
        self.tasks.work.calls.boot()
    }

    /// The greatest time that the brick knows. 0 where it knows none.
    #[tactic(auto, unfolding(crate::specs::Running::state_of))]
    pub fn known_time(&self) -> u64
        ensures { result ≡ (state_of self.now).known }
    {
        self.tasks.work.calls.known_time()
    }
}

impl<D: Armed> Node<D> {
    /// Passes a plan on to the disk: see [`Armed::arm`].
    #[tactic(auto, unfolding(crate::specs::Running::state_of))]
    pub fn arm(&mut self, plan: Plan)
        ensures same { IsSameBrick self.old self.new }
        ensures state { state_of self.new ≡ state_of self.old }
        // All that the store keeps is as it was, also what the machine does not see.
        ensures kept { self.new.brick.state ≡ self.old.brick.state }
        ensures halted { self.new.brick.halted ≡ self.old.brick.halted }
        ensures content { D.seen self.new.brick.disk ≡ D.seen self.old.brick.disk }
        ensures crash { (image : List ℕ) → D.may_leave self.new.brick.disk image → D.may_leave self.old.brick.disk image }
        ensures room_left { self.new.brick.listed ≡ self.old.brick.listed }
        ensures planned { D.plan self.new.brick.disk ≡ plan }
        ensures listed { D.unlisted self.old.brick.disk → D.unlisted self.new.brick.disk }
        ensures faults { D.faults self.new.brick.disk ≡ D.faults self.old.brick.disk }
        ensures room { KeepsRoom (D.has_room self.old.brick.disk) (D.has_room self.new.brick.disk) }
        ensures sound { plan ≡ Plan.Never → D.sound self.old.brick.disk → D.sound self.new.brick.disk }
        ensures again { plan ≡ Plan.Never → D.unlisted self.old.brick.disk → D.sound self.new.brick.disk }
    {
        self.store.arm(plan);
    }
}
