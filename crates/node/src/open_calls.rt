//! The operations that a brick coordinates.

ghost use Rattle.std.specs.Prelude.{◌≡◌, ◌<◌, ◌≤◌, ℕ, false, is_some, IfSome};
ghost use Rattle.std.specs.BTreeMap as tree;
ghost use Rattle.std.specs.Ordering.{nat_cmp};
ghost use Rattle.protocol.specs.Nodes.{known_after, fresh_stamp};

use crate::call_sources::CallSource;
use crate::numbered::{close_answered, keep_open};
use crate::operations::Operation;
use crate::outs::{Begun, Outs};
use crate::refusals::{has_block, has_later_time, has_length};
use fab_base::{Answer, Ask, BrickId, CallId, NoMem, Refusal, Stamp, View, ViewNo};
use layout::{Group, Layout};
use messages::{Call, Message, Messages, Packet, Reply};
use stamp_store::StampSource;
use std::alloc::Global;
use std::collections::BTreeMap;

/// How many operations a brick may have open.
pub const MOST_OPEN: usize = 64;

/// The operations that a brick has open, by the numbers of their calls, and what numbers and stamps the next one.
#[derive(Drop)]
pub struct OpenCalls {
    me: BrickId,
    seq: u64,
    stamps: StampSource,
    operations: BTreeMap<u64, Operation>,
    ghost fresh: { (k : ℕ) → seq < k → is_some (tree.get nat_cmp operations k) ≡ false },
    ghost from_one: { is_some (tree.get nat_cmp operations 0) ≡ false },
    ghost few: { tree.btree_map_len operations ≤ 64 },
}

/// The source of stamps, once a reply made a time known.
fn after_reply(mut stamps: StampSource, reply: &Reply) -> StampSource
    ensures boot { result.boot ≡ stamps.boot }
    ensures known { result.known ≡ known_after stamps.known reply.now }
{
    if let Reply::Later { stamp } = reply {
        stamps.saw(*stamp);
    }
    stamps
}

/// The stamp that a new round of ordering would have in a view, at this time of the brick's clock. None where no later time is left.
pub(crate) fn fresh_stamp(
    mut stamps: StampSource,
    now: u64,
    view: ViewNo,
    me: BrickId,
) -> Option<Stamp>
    ensures stamp { result ≡ fresh_stamp me view now stamps.boot stamps.known }
    ensures view { IfSome result (λ stamp. stamp.view ≡ view) }
{
    stamps.next(now, view, me)
}

impl OpenCalls {
    ghost use Rattle.std.specs.Prelude.{◌≡◌, ◌+◌, ◌-◌, ◌^◌, ◌<◌, ◌≤◌, ℕ, true, false, nat_eq, if◌then◌else◌, None, Some, is_some, option_map, IfOk, OnOk, OnErr, [], ◌∷◌, length, vec_len};
    ghost use Rattle.std.specs.BTreeMap.{get, btree_map_len};
    ghost use Rattle.std.specs.Ordering.{nat_cmp};
    ghost use Rattle.std.specs.Option.{SomeIff};
    ghost use Rattle.std.specs.Result.{result_err};
    ghost use Rattle.fab_base.specs.Layouts as layouts;
    ghost use Rattle.fab_base.specs.Layouts.{group_of, most_groups};
    ghost use Rattle.protocol.specs.Nodes.{has_block, has_length, refusal_in, refusal_of, coordinator_in, began_in, known_after, next_call, replied_at, resent_up_to, view_in, with_call, with_known};
    ghost use Rattle.node.specs.Operations.{coordinator_of};
    ghost use Rattle.quorum.specs.Quorums.{IsWithinLimits};
    ghost use Rattle.coord_phase.specs.Operations.{PriorIsWithinLimits, group_in_view};
    ghost use Rattle.messages.specs.declared.packets.Message.TheVariants as message;
    ghost use Rattle.stripe_code.specs.Codes.{coding};
    ghost use Rattle.coord_phase.specs.Messages.{packets_from};
    ghost use Rattle.messages.specs.declared.packets.Message as messages;
    ghost use Rattle.node.specs.States.{state_with, with_parts, OtherParts, AreCallsOf, AreSameCalls, BeginsAs, StepsAs};
    ghost use Rattle.node.specs.Moves.{counts_in, EndsIfOpen, WaitsOn, HasCounted};
    ghost use Rattle.node.specs.declared.open_calls.OpenCalls.{OpenCalls};

    /// No operation is open, and none was since this opening of the store.
    pub(crate) fn new(alloc: Global, me: BrickId, boot: u32) -> OpenCalls
        ensures me { result.me ≡ me }
        ensures boot { result.stamps.boot ≡ boot }
        ensures state { (parts : OtherParts) → state_with parts result ≡ with_parts boot parts }
        ensures calls { (layout : layouts.Layout) → AreCallsOf layout result }
    {
        let stamps = StampSource::new(boot);
        let operations = BTreeMap::new(alloc);
        OpenCalls {
            me,
            seq: 0,
            stamps,
            operations,
        }
    }

    /// The brick.
    pub(crate) fn me(&self) -> BrickId
        ensures { result ≡ self.now.me }
    {
        self.me
    }

    /// How often the brick's store was opened.
    pub(crate) fn boot(&self) -> u32
        ensures { result ≡ self.now.stamps.boot }
    {
        self.stamps.boot
    }

    /// The greatest time that the brick knows.
    pub(crate) fn known_time(&self) -> u64
        ensures { result ≡ self.now.stamps.known }
    {
        self.stamps.known
    }

    /// Why the brick does not begin an operation on a group, the first reason there is: there is no such stripe; no such data
    /// block; the bytes are not one block, or m blocks; 64 operations are open; no later time or call number is left.
    #[tactic(auto, unfolding(crate::specs::States::state_with))]
    pub(crate) fn refusal(&self, block: u16, group: &Group, ask: &Ask) -> Option<Refusal>
        ensures value { (parts : OtherParts) → result ≡ refusal_in block (state_with parts self.now) ask.now (Some group.now) }
        ensures known { result ≡ None → self.now.stamps.known + 1 < 2 ^ 64 }
        ensures room { result ≡ None → btree_map_len self.now.operations < 64 }
        ensures seq { result ≡ None → self.now.seq + 1 < 2 ^ 64 }
        ensures block { result ≡ None → has_block group.now.m ask.now.op ≡ true }
        ensures fits { result ≡ None → has_length group.now.m block ask.now.op ≡ true }
    {
        if ask.stripe.0 >= group.stripes() {
            Some(Refusal::NoStripe)
        } else if !has_block(group.m(), &ask.op) {
            Some(Refusal::NoBlock)
        } else if !has_length(group.m(), block, &ask.op) {
            Some(Refusal::Length)
        } else if self.operations.len() >= MOST_OPEN {
            Some(Refusal::Busy)
        } else if !has_later_time(self.stamps.known) || self.seq == u64::MAX {
            Some(Refusal::Spent)
        } else {
            None
        }
    }

    /// The group that is asked for, where the brick begins the operation; else why it does not.
    #[tactic(auto, unfolding(protocol::specs::Nodes::refusal_of))]
    pub(crate) fn admit<'a>(&self, layout: &'a Layout, ask: &Ask) -> Result<&'a Group, Refusal>
        ensures refused { (parts : OtherParts) → result_err result ≡ refusal_of layout.now (state_with parts self.now) ask.now }
        ensures group { IfOk result (λ group. group_of layout.now ask.now.group.0 ≡ Some group.now) }
        ensures few { OnOk result (ask.now.group.0 < most_groups) }
        ensures room { OnOk result (btree_map_len self.now.operations < 64) }
        ensures known { OnOk result (self.now.stamps.known + 1 < 2 ^ 64) }
        ensures seq { OnOk result (self.now.seq + 1 < 2 ^ 64) }
        ensures block { IfOk result (λ group. has_block group.now.m ask.now.op ≡ true) }
        ensures fits { IfOk result (λ group. has_length group.now.m layout.now.block ask.now.op ≡ true) }
    {
        let Some(group) = layout.group(ask.group) else {
            return Err(Refusal::NoStripe);
        };
        match self.refusal(layout.block(), group, ask) {
            Some(refusal) => Err(refusal),
            None => Ok(group),
        }
    }

    /// Whether the operation of the call of a number is open.
    pub(crate) fn is_open(&self, seq: u64) -> bool
        ensures { result ≡ is_some (get nat_cmp self.now.operations seq) }
    {
        self.operations.contains_key(&seq)
    }

    /// The number of the brick's next call. None where no number is left.
    pub(crate) fn next_seq(&self) -> Option<u64>
        ensures { SomeIff result (self.now.seq + 1 < 2 ^ 64) (self.now.seq + 1) }
    {
        self.seq.checked_add(1)
    }

    /// Whether no call is left: the last one has the last number.
    pub(crate) fn is_spent(&self) -> bool
        ensures value { result ≡ nat_eq self.now.seq (2 ^ 64 - 1) }
        ensures left { result ≡ false → self.now.seq + 1 < 2 ^ 64 }
    {
        self.seq == u64::MAX
    }

    /// Begins an operation that is not refused, in this view of its group.
    pub(crate) fn begin(
        &mut self,
        alloc: Global,
        layout: &Layout,
        view: View,
        now: u64,
        ask: &Ask,
    ) -> Result<Begun, NoMem>
        requires room { btree_map_len self.old.operations < 64 }
        requires known { self.old.stamps.known + 1 < 2 ^ 64 }
        requires seq { self.old.seq + 1 < 2 ^ 64 }
        requires limits { IsWithinLimits (group_in_view layout.now view.members ask.now.group.0).m (length view.members) }
        requires prior { PriorIsWithinLimits (group_in_view layout.now view.members ask.now.group.0).m view.number view.prior }
        requires block { has_block (group_in_view layout.now view.members ask.now.group.0).m ask.now.op ≡ true }
        requires fits { has_length (group_in_view layout.now view.members ask.now.group.0).m layout.now.block ask.now.op ≡ true }
        ensures begun { (parts : OtherParts) → IfOk result
            (BeginsAs self.old.me (state_with parts self.new) (began_in (coding layout.now) self.old.me (state_with parts self.old)
            (coordinator_in (group_in_view layout.now view.members ask.now.group.0) view self.old.me now (state_with parts self.old) ask.now))) }
        ensures err { OnErr result ((parts : OtherParts) → state_with parts self.new ≡ state_with parts self.old) }
        ensures same { AreSameCalls layout.now self.old self.new }
        ensures few { IfOk result (λ begun. vec_len begun.messages ≤ 32) }
    {
        let seq = self.seq + 1;
        let Some(stamp) = fresh_stamp(self.stamps, now, view.number, self.me) else {
            unreachable!()
        };
        let call = CallId {
            boot: self.stamps.boot,
            seq,
        };
        match Operation::begin(alloc, layout, view, call, ask, stamp) {
            Ok((operation, messages)) => {
                keep_open(&mut self.operations, seq, operation)?;
                self.seq = seq;
                self.stamps.known = stamp.time;
                Ok(Begun { seq, messages })
            }
            Err(fault) => Err(fault),
        }
    }

    /// What the next call is: of this number at this opening of the store.
    pub(crate) fn next_call(&self) -> CallId
        requires seq { self.now.seq + 1 < 2 ^ 64 }
        ensures { (parts : OtherParts) → result ≡ next_call (state_with parts self.now) }
    {
        CallId {
            boot: self.stamps.boot,
            seq: self.seq + 1,
        }
    }

    /// Takes note that the next call was made of something other than an operation, if it was.
    pub(crate) fn made_call(&mut self, made: bool)
        requires seq { self.old.seq + 1 < 2 ^ 64 }
        ensures state { (parts : OtherParts) → state_with parts self.new ≡ record (state_with parts self.old) { seq = if made then self.old.seq + 1 else self.old.seq } }
        ensures same { (layout : layouts.Layout) → AreSameCalls layout self.old self.new }
    {
        if made {
            self.seq += 1;
        }
    }

    /// Where the next call comes from, at this time of the brick's clock.
    pub(crate) fn source(&self, now: u64) -> CallSource
        ensures { result ≡ record { me = self.now.me; seq = self.now.seq; stamps = self.now.stamps; now = now } }
    {
        CallSource {
            me: self.me,
            seq: self.seq,
            stamps: self.stamps,
            now,
        }
    }

    /// The same, once a reply made a time known.
    pub(crate) fn source_after(&self, now: u64, reply: &Reply) -> CallSource
        ensures me { result.me ≡ self.now.me }
        ensures seq { result.seq ≡ self.now.seq }
        ensures boot { result.stamps.boot ≡ self.now.stamps.boot }
        ensures known { result.stamps.known ≡ known_after self.now.stamps.known reply.now }
        ensures now { result.now ≡ now }
    {
        let stamps = after_reply(self.stamps, reply);
        CallSource {
            me: self.me,
            seq: self.seq,
            stamps,
            now,
        }
    }

    /// Takes note that the call of this number, which is the last one then, was made of something other than an operation, with a stamp of this time.
    pub(crate) fn made_read(&mut self, seq: u64, time: u64)
        requires later { self.old.seq ≤ seq }
        ensures state { (parts : OtherParts) → state_with parts self.new ≡ record (state_with parts self.old) { seq = seq; known = time } }
        ensures operations { self.new.operations ≡ self.old.operations }
        ensures same { (layout : layouts.Layout) → AreSameCalls layout self.old self.new }
    {
        self.seq = seq;
        self.stamps.known = time;
    }

    /// This is the greatest time that the brick knows now.
    pub(crate) fn knows(&mut self, time: u64)
        ensures state { (parts : OtherParts) → state_with parts self.new ≡ with_known (state_with parts self.old) time }
        ensures operations { self.new.operations ≡ self.old.operations }
        ensures seq { self.new.seq ≡ self.old.seq }
        ensures same { (layout : layouts.Layout) → AreSameCalls layout self.old self.new }
    {
        self.stamps.known = time;
    }

    /// The view of the open operation of a call, if there is one.
    pub(crate) fn view_of(&self, seq: u64) -> Option<View>
        ensures { result ≡ option_map (λ op. view_in (coordinator_of op)) (get nat_cmp self.now.operations seq) }
    {
        match self.operations.get(&seq) {
            Some(open) => Some(open.view()),
            None => None,
        }
    }

    /// Takes note of a time that a reply makes known.
    pub(crate) fn heard(&mut self, reply: &Reply)
        ensures state { (parts : OtherParts) → state_with parts self.new ≡ with_known (state_with parts self.old) (known_after (state_with parts self.old).known reply.now) }
        ensures operations { self.new.operations ≡ self.old.operations }
        ensures seq { self.new.seq ≡ self.old.seq }
        ensures same { (layout : layouts.Layout) → AreSameCalls layout self.old self.new }
    {
        self.stamps = after_reply(self.stamps, reply);
    }

    /// Handles a reply to an open operation, at this time of the brick's clock: the operation counts it, or leaves it out.
    pub(crate) fn on_reply(
        &mut self,
        alloc: Global,
        now: u64,
        packet: &Packet,
        call: Call,
        reply: &Reply,
    ) -> Result<Outs, NoMem>
        requires reply { packet.now.message ≡ message.Reply call reply.now }
        requires is_open { is_some (get nat_cmp self.old.operations call.seq) ≡ true }
        ensures step { (layout : layouts.Layout) → AreCallsOf layout self.old → (parts : OtherParts) → IfOk result (StepsAs self.old.me (state_with parts self.new)
            (replied_at (coding layout) self.old.me now packet.now.from (state_with parts self.old) call reply.now ((state_with parts self.old).calls call.seq))) }
        ensures few { IfOk result (λ outs. length outs.messages ≤ 32) }
        ensures err { OnErr result ((parts : OtherParts) → state_with parts self.new ≡ state_with parts self.old) }
        ensures same { (layout : layouts.Layout) → AreSameCalls layout self.old self.new }
    {
        let mut stamps = after_reply(self.stamps, reply);
        let me = self.me;
        let Some(open) = self.operations.get_mut(&call.seq) else {
            unreachable!()
        };
        let fresh = fresh_stamp(stamps, now, open.stamp_view(), me);
        let outs = open.on_reply(alloc, packet.from, &packet.message, fresh, &mut stamps)?;
        self.stamps = stamps;
        close_answered(&mut self.operations, call.seq, &outs);
        Ok(outs)
    }

    /// Whether a message counts in the open operation of a call, if there is one.
    pub(crate) fn counts(&self, seq: u64, from: BrickId, message: &Message) -> bool
        ensures { result ≡ counts_in (get nat_cmp self.now.operations seq) from message.now }
    {
        match self.operations.get(&seq) {
            Some(open) => open.counts(from, message),
            None => false,
        }
    }

    /// How the open operation of a call ends on a member's reply that counts and tells this later view. None where it waits for more, or there is no such
    /// operation.
    pub(crate) fn ended_by(&self, seq: u64, from: BrickId, view: ViewNo) -> Option<Answer>
        ensures { EndsIfOpen (get nat_cmp self.now.operations seq) from view result }
    {
        self.operations.get(&seq)?.ended_by(from, view)
    }

    /// Has the open operation of a call count a reply on which it waits for more.
    ///
    /// # Errors
    ///
    /// `NoMemory` where no memory was left: the operation is as it was.
    pub(crate) fn count(&mut self, seq: u64, from: BrickId, message: &Message) -> Result<(), NoMem>
        requires waits { WaitsOn (get nat_cmp self.old.operations seq) from message.now }
        ensures counted { OnOk result (HasCounted seq from message.now self.old self.new) }
        ensures err { OnErr result ((parts : OtherParts) → state_with parts self.new ≡ state_with parts self.old) }
        ensures same { (layout : layouts.Layout) → AreSameCalls layout self.old self.new }
    {
        match self.operations.get_mut(&seq) {
            Some(open) => open.count(from, message),
            None => unreachable!(),
        }
    }

    /// Has the open operation of a call take the last reply that counted back.
    pub(crate) fn take_back(&mut self, seq: u64)
        ensures state { (from : BrickId) (message : messages.Message) (before : OpenCalls) → HasCounted seq from message before self.old → (parts : OtherParts)
            → state_with parts self.new ≡ state_with parts before }
        ensures same { (layout : layouts.Layout) → AreSameCalls layout self.old self.new }
    {
        if let Some(open) = self.operations.get_mut(&seq) {
            open.take_back();
        }
    }

    /// Answers the open operation of a call.
    pub(crate) fn close(&mut self, alloc: Global, seq: u64, answer: Answer) -> Outs
        requires is_open { is_some (get nat_cmp self.old.operations seq) ≡ true }
        ensures outs { result ≡ record { messages = []; told = []; answers = record { seq = seq; answer = answer } ∷ []; reports = [] } }
        ensures state { (parts : OtherParts) → state_with parts self.new ≡ with_call (state_with parts self.old) self.old.stamps.known
            ((state_with parts self.old).busy - 1) seq None }
        ensures same { (layout : layouts.Layout) → AreSameCalls layout self.old self.new }
    {
        let outs = Outs::answering(alloc, seq, answer);
        close_answered(&mut self.operations, seq, &outs);
        outs
    }

    /// At a tick of the brick's clock each open operation, in the order of beginning, sends its present phase again to each member without a reply that
    /// counts, each message right after one that teaches its receiver the operation's view, where that is later than view 1.
    pub(crate) fn on_tick(&self, alloc: Global) -> Result<Messages, NoMem>
        ensures packets { IfOk result (λ messages. (layout : layouts.Layout) (parts : OtherParts) → AreCallsOf layout self.now
            → packets_from self.now.me messages.items ≡ resent_up_to (coding layout) self.now.me (state_with parts self.now).calls self.now.seq) }
        ensures few { IfOk result (λ messages. vec_len messages ≤ 4096) }
    {
        let mut messages = Vec::new(alloc);
        for operation in self.operations.values() {
            let mut again = operation.on_tick(alloc)?;
            messages.append(&mut again)?;
        }
        Ok(messages)
    }
}
