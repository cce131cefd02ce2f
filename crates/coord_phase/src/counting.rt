//! Which replies count.

ghost use Rattle.std.specs.Prelude.{◌≡◌, ◌≤◌, ◌<◌, nat_eq, length, IfSome};
ghost use Rattle.std.specs.List.{list_any};
ghost use Rattle.fab_base.specs.Layouts.{seat_in};
ghost use Rattle.protocol.specs.Coordinators.{call_same, may_be_found, may_be_base, told_length, old_bound, answers_phase};
ghost use Rattle.protocol.specs.Views.{floor_of};

use crate::operations::{Operation, looks_back};
use fab_base::{BrickId, NoMem, Stamp, ViewNo};
use messages::{Call, Message, Reply, Version};
use protocol::{Counted, Phase};
use std::alloc::Global;

/// Whether a brick is one of these members.
fn stands_in(members: &[BrickId], brick: BrickId) -> bool
    ensures { result ≡ list_any (λ member. nat_eq member.0 brick.0) members.now }
{
    members.iter().any(|member| member.0 == brick.0)
}

/// Whether two calls are the same, phase and all.
fn is_same_call(left: Call, right: Call) -> bool
    ensures { result ≡ call_same left right }
{
    left == right
}

/// Whether a version that was found has this many bytes, and is below the phase's bound.
fn may_be_found(length: u16, bound: Stamp, found: &Option<Version>) -> bool
    ensures { result ≡ may_be_found length bound found.now }
{
    match found {
        None => true,
        Some(version) => { version.block.len() == length as usize && version.stamp.is_below(bound) }
    }
}

/// Whether a version that was found has the length of a block, and is the phase's base.
fn may_be_base(block: u16, base: Stamp, found: &Option<Version>) -> bool
    ensures { result ≡ may_be_base block base found.now }
{
    match found {
        None => true,
        Some(version) => version.block.len() == block as usize && version.stamp.is_same(base),
    }
}

/// How many bytes a seat tells of a version, where those of data block `j` are wanted alone. A reply that tells another number does
/// not count.
fn told_length(block: u16, j: u8, seat: u8) -> u16
    ensures { result ≡ told_length block j seat }
{
    if j == seat { block } else { 0 }
}

/// The stamp that is below all that are made in a view, and above all of the views before it; in view 1, the first stamp.
fn floor_of(view: ViewNo) -> Stamp
    ensures { result ≡ floor_of view.0 }
{
    if view.0 <= 1 {
        return Stamp::FIRST;
    }
    Stamp {
        view,
        ..Stamp::FIRST
    }
}

/// The stamp below which a phase that looks back finds versions: its bound, or the first stamp of the operation's view.
fn old_bound(stamp: Stamp, bound: Option<Stamp>) -> Stamp
    ensures { result ≡ old_bound stamp bound }
{
    match bound {
        None => floor_of(stamp.view),
        Some(bound) => bound,
    }
}

/// Whether a seat's reply answers the request of a phase of an operation of this stamp; a block has this many bytes.
fn answers(block: u16, stamp: Stamp, seat: u8, phase: Phase, reply: &Reply) -> bool
    ensures { result ≡ answers_phase block stamp seat phase reply.now }
{
    match (phase, reply) {
        (Phase::Looks, Reply::Found { newest, .. }) => match newest {
            None => true,
            Some(version) => version.block.len() == block as usize,
        },
        (Phase::LooksAt(j), Reply::Found { newest, .. }) => match newest {
            None => true,
            Some(version) => version.block.len() == told_length(block, j, seat) as usize,
        },
        (Phase::OrdersAt(j), Reply::OrderedRead { found }) => {
            may_be_found(told_length(block, j, seat), stamp, found)
        }
        (Phase::Recovers, Reply::OrderedRead { found }) => may_be_found(block, stamp, found),
        (Phase::Descends(bound), Reply::OrderedRead { found }) => {
            may_be_found(block, bound, found)
        }
        (Phase::Bases(base), Reply::OrderedRead { found }) => may_be_base(block, base, found),
        (Phase::LooksBack(bound), Reply::Old { found }) => {
            may_be_found(block, old_bound(stamp, bound), found)
        }
        (Phase::LooksBack(_), Reply::Retired) => true,
        (Phase::LooksBack(_), _) => false,
        (_, Reply::Moved { .. }) => true,
        (Phase::Orders, Reply::Ordered)
        | (Phase::Modifies { .. }, Reply::Stored | Reply::Behind { .. })
        | (Phase::Stores, Reply::Stored)
        | (
            Phase::Orders
            | Phase::OrdersAt(_)
            | Phase::Recovers
            | Phase::Descends(_)
            | Phase::Modifies { .. }
            | Phase::Bases(_)
            | Phase::Stores,
            Reply::Later { .. } | Reply::Full { .. },
        ) => true,
        _ => false,
    }
}

impl Operation {
    ghost use Rattle.std.specs.Prelude.{◌≡◌, ◌-◌, ◌<◌, ◌≤◌, ◌^◌, not, nat_lt, true, None, Some, IfSome, IfOk, OnOk, OnErr, length};
    ghost use Rattle.std.specs.List.{list_all};
    ghost use Rattle.protocol.specs.Coordinators.{answers_phase, asked_group, needed, may_count, has_seat, counts_at};
    ghost use Rattle.protocol.specs.Nodes.{has_length};
    ghost use Rattle.coord_phase.specs.Operations.{with_state, without_last, counts, heard};

    /// Whether the member at a seat has a reply that counts.
    pub(crate) fn has_reply(&self, seat: u8) -> bool
        requires { seat < length (asked_group self.now.state).members }
        ensures { result ≡ has_seat seat self.now.state.counted }
    {
        self.replies.has_reply(seat)
    }

    /// Whether a member's reply may count in the present phase: where some members alone count, it is one of them, or the phase looks back.
    fn may_count(&self, brick: BrickId) -> bool
        ensures { result ≡ may_count self.now.state brick.0 }
    {
        match &self.only {
            None => true,
            Some(only) => looks_back(self.stage.phase) || stands_in(only.as_slice(), brick),
        }
    }

    /// The seat at which a reply counts: it may count, is to this very phase, answers it, and is its seat's first.
    #[tactic(auto, unfolding(protocol::specs::Coordinators::counts_at))]
    fn seat_to_count(&self, from: BrickId, call: Call, reply: &Reply) -> Option<u8>
        ensures seat { result ≡ counts_at self.now.block self.now.state from.0 call reply.now }
        ensures few { IfSome result (λ _. self.now.state.call.phase < 2 ^ 32 - 1) }
    {
        if !is_same_call(call, self.stage.call) || self.stage.call.phase == u32::MAX {
            return None;
        }
        if !self.may_count(from) {
            return None;
        }
        let seat = self.asked().seat_of(from)?;
        if !answers(self.block, self.stage.stamp, seat, self.stage.phase, reply)
            || self.has_reply(seat)
        {
            return None;
        }
        Some(seat)
    }

    /// Whether a message counts: it is a reply to this very phase, answers it, and is its seat's first.
    #[tactic(auto, unfolding(crate::specs::Operations::seat_told))]
    pub fn counts(&self, from: BrickId, message: &Message) -> bool
        ensures { result ≡ counts self.now from message.now }
    {
        match message {
            Message::Reply(call, reply) => self.seat_to_count(from, *call, reply).is_some(),
            _ => false,
        }
    }

    /// Counts a reply, if it counts, and says whether it did. Where memory runs out nothing has changed.
    #[tactic(auto, unfolding(crate::specs::Operations::seat_told))]
    pub fn count(&mut self, alloc: Global, from: BrickId, message: &Message) -> Result<bool, NoMem>
        ensures counted { IfOk result (λ counted. counted ≡ counts self.old from message.now) }
        ensures heard { OnOk result (self.new ≡ heard self.old from message.now) }
        ensures stamp { self.new.state.stamp ≡ self.old.state.stamp }
        ensures few { IfOk result (λ counted. counted ≡ true → self.new.state.call.phase < 2 ^ 32 - 1) }
        ensures err { OnErr result (self.new ≡ self.old) }
    {
        let Message::Reply(call, reply) = message else {
            return Ok(false);
        };
        let Some(seat) = self.seat_to_count(from, *call, reply) else {
            return Ok(false);
        };
        self.replies.push(Counted {
            seat,
            brick: from,
            reply: reply.copy(alloc)?,
        })?;
        Ok(true)
    }

    /// Takes the last reply that counted back.
    pub fn take_back(&mut self)
        ensures { self.new ≡ with_state self.old (without_last self.old.state) }
    {
        self.replies.take_back();
    }

    /// Whether as many replies count as decide the phase.
    pub fn is_full(&self) -> bool
        ensures full { result ≡ not (nat_lt (length self.now.state.counted) (needed self.now.state)) }
        ensures enough { result ≡ true → self.now.state.group.m ≤ length self.now.state.counted }
        ensures long { has_length self.now.state.group.m self.now.block self.now.state.ask.op ≡ true }
        ensures answers { list_all (λ reply. answers_phase self.now.block self.now.state.stamp reply.seat self.now.state.phase reply.reply) self.now.state.counted ≡ true }
    {
        // The use of a field tells the proof what is always true of an operation.
        let _ = &self.block;
        self.counted().len() >= self.needed()
    }
}
