//! What is known of the operations, the proposals, the synchronisations and the scrubs of a run, from its marks, messages and reports.

use crate::line_effects::{Before, DeliveryOutcome};
use fab_base::{BrickId, GroupId, NoMem, ViewNo};
use messages::{Call, Message, Packet, Request};
use protocol::Report;
use reg_model::Mark;
use std::alloc::Global;
use std::collections::{BTreeMap, BTreeSet};
use std::mem;
use world::World;

/// A call: its coordinator, how often that brick's store had been opened, and the call's number since then.
type CallKey = (u16, u32, u64);

/// A reply: the brick that sent it, and the phase and the number of its operation.
type ReplyKey = (u16, u32, u64);

/// A reply to a proposal, to a read of a synchronisation, or to a scrub: the brick that sent it, the phase, and its call.
type VoiceKey = (u16, u32, CallKey);

/// What is known of an operation.
#[derive(Clone, Copy)]
pub struct Operation {
    /// Its coordinator.
    pub brick: BrickId,
    /// The place of its Begin among all marks.
    pub begin: usize,
    /// The place among all marks of its End, or of the Crash that cut it off.
    pub end: Option<usize>,
    /// How many messages had been sent before it began.
    sent: usize,
    /// The number of its newest phase.
    phase: u32,
}

/// What a message is of.
#[derive(Clone, Copy, PartialEq, Eq)]
pub enum Owner {
    /// The operation of this number.
    Operation(u64),
    /// A read of a synchronisation.
    Read,
    /// A scrub.
    Scrub,
    /// A proposal, or nothing.
    Other,
}

/// What is known of a scrub that is open.
#[derive(Drop)]
struct OpenScrub {
    /// Its call.
    key: CallKey,
    /// The number of its newest phase.
    phase: u32,
    /// Whether that phase asks the members of the view before.
    looks_back: bool,
    /// The bricks that its line names: in a phase that does not look back their replies alone count.
    bricks: Vec<u64>,
}

impl OpenScrub {
    /// Whether it counts the first reply of a brick to this phase of a call.
    fn is_due(&self, key: CallKey, phase: u32, brick: BrickId) -> bool {
        self.key == key
            && self.phase == phase
            && (self.looks_back || self.bricks.contains(&u64::from(brick.0)))
    }
}

/// What is known of the operations, the proposals, the synchronisations and the scrubs of a run.
pub struct Journal {
    /// The operations by number, from 1.
    operations: Vec<Operation>,
    /// What each message is of, by number from 1.
    owners: Vec<Owner>,
    /// How many operations had begun when a brick stopped the last time, by its number, up to the highest that has stopped: of those its own
    /// have ended.
    stopped: Vec<usize>,
    /// The numbers of operations by their calls.
    numbers: BTreeMap<CallKey, u64>,
    /// The stripes that operations named, by group and number.
    stripes: BTreeSet<(u32, u32)>,
    /// An operation that began, and none of whose messages was seen yet.
    nameless: Option<u64>,
    /// The replies that were counted.
    counted: BTreeSet<ReplyKey>,
    /// The proposals that are open, by their bricks: the call of each, and the number of its newest phase.
    proposals: BTreeMap<u16, (CallKey, u32)>,
    /// The replies that were counted in proposals, in reads of synchronisations, and in scrubs.
    voices: BTreeSet<VoiceKey>,
    /// The reads of synchronisations that are open, by their bricks: the call of each, and the number of its newest phase.
    reads: BTreeMap<u16, (CallKey, u32)>,
    /// The calls of all reads of synchronisations.
    read_calls: BTreeSet<CallKey>,
    /// The scrubs that are open, by their bricks.
    scrubs: BTreeMap<u16, OpenScrub>,
    /// The calls of all scrubs.
    scrub_calls: BTreeSet<CallKey>,
    /// The bricks that a line names, if it begins a scrub none of whose messages was seen yet.
    scrubbed: Option<Vec<u64>>,
    /// The views that bricks are known to have learnt, by brick and group, if later than view 1.
    views: BTreeMap<(u16, u32), u32>,
    /// The views in which bricks know that all stripes are kept, by brick and group, if later than view 1.
    synced: BTreeMap<(u16, u32), u32>,
}

impl Drop for Journal {
    fn drop(self) {
        let Self {
            operations: _,
            owners: _,
            stopped: _,
            numbers: _,
            stripes: _,
            nameless: _,
            counted: _,
            proposals: _,
            voices: _,
            reads: _,
            read_calls: _,
            scrubs: _,
            scrub_calls: _,
            scrubbed: _,
            views: _,
            synced: _,
        } = self;
    }
}

/// The call that a message is of, and the number of its phase. None where it is of no operation.
fn call_of(packet: &Packet) -> Option<(CallKey, u32)> {
    match &packet.message {
        Message::Request(call, _) => Some((key_of(packet.from, call), call.phase)),
        Message::Reply(call, _) => Some((key_of(packet.to, call), call.phase)),
        _ => None,
    }
}

/// A call of this coordinator.
fn key_of(coordinator: BrickId, call: &Call) -> CallKey {
    (coordinator.0, call.boot, call.seq)
}

/// The place of the operation, or of the message, of a number.
pub fn place_of(number: u64) -> usize {
    (number as usize).wrapping_sub(1)
}

/// The number of the operation, or of the message, at a place.
pub fn number_at(place: usize) -> u64 {
    (place as u64).saturating_add(1)
}

/// Cuts off the operations of a brick that are open, at the mark at this place.
fn cut_off(operations: &mut [Operation], brick: BrickId, place: usize) {
    for operation in operations {
        if operation.brick == brick && operation.end.is_none() {
            operation.end = Some(place);
        }
    }
}

impl Journal {
    /// Nothing happened yet.
    pub fn new(alloc: Global) -> Journal {
        Journal {
            operations: Vec::new(alloc),
            owners: Vec::new(alloc),
            stopped: Vec::new(alloc),
            numbers: BTreeMap::new(alloc),
            stripes: BTreeSet::new(alloc),
            nameless: None,
            counted: BTreeSet::new(alloc),
            proposals: BTreeMap::new(alloc),
            voices: BTreeSet::new(alloc),
            reads: BTreeMap::new(alloc),
            read_calls: BTreeSet::new(alloc),
            scrubs: BTreeMap::new(alloc),
            scrub_calls: BTreeSet::new(alloc),
            scrubbed: None,
            views: BTreeMap::new(alloc),
            synced: BTreeMap::new(alloc),
        }
    }

    /// The operation of a number.
    pub fn operation(&self, number: u64) -> Option<&Operation> {
        self.operations.get(place_of(number))
    }

    /// All operations, number 1 first.
    pub fn operations(&self) -> &[Operation] {
        self.operations.as_slice()
    }

    /// The stripes that operations named, in order.
    pub fn stripes(&self) -> &BTreeSet<(u32, u32)> {
        &self.stripes
    }

    /// What the message of a number is of.
    pub fn owner_of(&self, number: u64) -> Owner {
        self.owners
            .get(place_of(number))
            .copied()
            .unwrap_or(Owner::Other)
    }

    /// The number of the operation that the message of a number is of.
    pub fn operation_of(&self, number: u64) -> Option<u64> {
        match self.owner_of(number) {
            Owner::Operation(operation) => Some(operation),
            Owner::Read | Owner::Scrub | Owner::Other => None,
        }
    }

    /// What came of the message of a number, which was delivered to a brick that was up, where nothing else tells it. A reply that was
    /// counted is noted: an operation, a proposal, a read or a scrub counts the first reply of each brick in its newest phase, and a scrub those of its own bricks.
    pub(crate) fn note_delivery(
        &mut self,
        number: u64,
        packet: &Packet,
    ) -> Result<DeliveryOutcome, NoMem> {
        match &packet.message {
            Message::Reply(call, _) => match self.operation_of(number) {
                Some(operation) => self.note_reply(operation, call.phase, packet.from),
                None => self.note_voice(key_of(packet.to, call), call.phase, packet.from),
            },
            Message::Request(_, Request::Collect { .. }) => Ok(DeliveryOutcome::Told),
            _ => Ok(DeliveryOutcome::Ignored),
        }
    }

    /// Notes that a brick's reply in a phase of an operation was delivered, and answers whether it was counted.
    fn note_reply(
        &mut self,
        operation: u64,
        phase: u32,
        brick: BrickId,
    ) -> Result<DeliveryOutcome, NoMem> {
        let is_due = match self.operation(operation) {
            Some(found) => found.end.is_none() && found.phase == phase,
            None => false,
        };
        if is_due && self.counted.insert((brick.0, phase, operation))? {
            return Ok(DeliveryOutcome::Counted);
        }
        Ok(DeliveryOutcome::NotCounted)
    }

    /// Notes that a brick's reply in a phase of a proposal, of a read or of a scrub was delivered, and answers whether it was counted.
    fn note_voice(
        &mut self,
        key: CallKey,
        phase: u32,
        brick: BrickId,
    ) -> Result<DeliveryOutcome, NoMem> {
        let due = Some((key, phase));
        let is_scrub_due = match self.scrubs.get(&key.0) {
            Some(scrub) => scrub.is_due(key, phase, brick),
            None => false,
        };
        let is_due = is_scrub_due
            || self.proposals.get(&key.0).copied() == due
            || self.reads.get(&key.0).copied() == due;
        if is_due && self.voices.insert((brick.0, phase, key))? {
            return Ok(DeliveryOutcome::Counted);
        }
        Ok(DeliveryOutcome::NotCounted)
    }

    /// Notes that a brick has learnt a view of a group, and answers whether that is news.
    pub(crate) fn note_view(
        &mut self,
        brick: BrickId,
        group: GroupId,
        view: ViewNo,
    ) -> Result<bool, NoMem> {
        let key = (brick.0, group.0);
        let known = self.views.get(&key).copied().unwrap_or(1);
        if view.0 <= known {
            return Ok(false);
        }
        self.views.insert(key, view.0)?;
        Ok(true)
    }

    /// Notes that a brick knows that all stripes of a group are kept in a view, and answers whether that is news.
    pub(crate) fn note_synced(
        &mut self,
        brick: BrickId,
        group: GroupId,
        view: ViewNo,
    ) -> Result<bool, NoMem> {
        let key = (brick.0, group.0);
        let known = self.synced.get(&key).copied().unwrap_or(1);
        if view.0 <= known {
            return Ok(false);
        }
        self.synced.insert(key, view.0)?;
        Ok(true)
    }

    /// Lists the messages of an operation that were delivered as it ran alone: none of its messages was delivered before.
    pub(crate) fn list_deliveries(
        &self,
        world: &World,
        operation: u64,
        deliveries: &mut Vec<(u64, DeliveryOutcome)>,
    ) -> Result<(), NoMem> {
        let first = match self.operation(operation) {
            Some(found) => found.sent,
            None => self.owners.len(),
        };
        for place in first..self.owners.len() {
            let number = number_at(place);
            let is_own = self.operation_of(number) == Some(operation);
            if is_own && world.was_delivered(number) {
                deliveries.push((number, DeliveryOutcome::Told))?;
            }
        }
        Ok(())
    }

    /// Notes what a line did, before which there was so much, and the bricks that it names, if it is to begin a scrub.
    pub(crate) fn note_line(
        &mut self,
        world: &World,
        before: Before,
        scrubbed: Option<Vec<u64>>,
    ) -> Result<(), NoMem> {
        let (marks, sent, reports) = (world.marks(), world.sent(), world.reports());
        self.scrubbed = scrubbed;
        for place in before.marks..marks.len() {
            self.note_mark(place, &marks[place])?;
        }
        for place in before.sent..sent.len() {
            self.note_sent(&sent[place])?;
        }
        for place in before.reports..reports.len() {
            let (brick, report) = &reports[place];
            self.note_report(*brick, report);
        }
        Ok(())
    }

    /// Notes what a brick reported: its proposal, its synchronisation or its scrub has ended.
    fn note_report(&mut self, brick: BrickId, report: &Report) {
        match report {
            Report::View { .. } => {
                self.proposals.remove(&brick.0);
            }
            Report::Sync { .. } => {
                self.reads.remove(&brick.0);
            }
            Report::Scrub { .. } => {
                self.scrubs.remove(&brick.0);
            }
        }
    }

    /// Notes the mark at this place.
    fn note_mark(&mut self, place: usize, mark: &Mark) -> Result<(), NoMem> {
        match mark {
            Mark::Begin {
                operation,
                brick,
                ask,
                ..
            } => {
                self.nameless = Some(*operation);
                self.operations.push(Operation {
                    brick: *brick,
                    begin: place,
                    end: None,
                    sent: self.owners.len(),
                    phase: 0,
                })?;
                self.stripes.insert((ask.group.0, ask.stripe.0))?;
                Ok(())
            }
            Mark::End { operation, .. } => {
                if let Some(operation) = self.operations.get_mut(place_of(*operation)) {
                    operation.end = Some(place);
                }
                Ok(())
            }
            Mark::Crash { brick, .. } => self.note_crash(place, *brick),
        }
    }

    /// Notes that a brick stopped, at the mark at this place: its operations that were open are cut off, and so are its proposal, its
    /// synchronisation and its scrub.
    fn note_crash(&mut self, place: usize, brick: BrickId) -> Result<(), NoMem> {
        let index = usize::from(brick.0);
        let count = self.operations.len();
        if self.stopped.len() <= index {
            self.stopped.resize(index + 1, 0)?;
        }
        let first = mem::replace(&mut self.stopped[index], count).min(count);
        cut_off(&mut self.operations[first..], brick, place);
        self.proposals.remove(&brick.0);
        self.reads.remove(&brick.0);
        self.scrubs.remove(&brick.0);
        Ok(())
    }

    /// Notes a message that was sent.
    fn note_sent(&mut self, packet: &Packet) -> Result<(), NoMem> {
        let owner = match call_of(packet) {
            Some((key, phase)) => match self.note_call(key, phase)? {
                Some(operation) => Owner::Operation(operation),
                None => self.note_own(packet, key, phase)?,
            },
            None => Owner::Other,
        };
        self.owners.push(owner)?;
        self.note_ballot(packet)
    }

    /// Notes that a message of a call of no operation was sent, in this phase, and answers what it is of. A request to a stripe is of a scrub or of a read, which its
    /// brick has open, and this is its newest phase; unless it is a Collect, which is sent once that has ended.
    fn note_own(&mut self, packet: &Packet, key: CallKey, phase: u32) -> Result<Owner, NoMem> {
        match &packet.message {
            Message::Request(_, Request::Prepare { .. } | Request::Accept { .. }) => {}
            Message::Request(_, Request::Collect { .. }) => {}
            Message::Request(_, request) => self.note_own_phase(packet.from, key, phase, request)?,
            _ => {}
        }
        if self.scrub_calls.contains(&key) {
            Ok(Owner::Scrub)
        } else if self.read_calls.contains(&key) {
            Ok(Owner::Read)
        } else {
            Ok(Owner::Other)
        }
    }

    /// Notes the newest phase of a brick's scrub, or of a read of its synchronisation, which sends this request to a stripe.
    fn note_own_phase(
        &mut self,
        brick: BrickId,
        key: CallKey,
        phase: u32,
        request: &Request,
    ) -> Result<(), NoMem> {
        if let Some(bricks) = self.scrubbed.take() {
            self.scrub_calls.insert(key)?;
            let scrub = OpenScrub {
                key,
                phase,
                looks_back: false,
                bricks,
            };
            self.scrubs.insert(brick.0, scrub)?;
            return Ok(());
        }
        if !self.scrub_calls.contains(&key) {
            self.read_calls.insert(key)?;
            self.reads.insert(brick.0, (key, phase))?;
            return Ok(());
        }
        if let Some(scrub) = self.scrubs.get_mut(&brick.0) {
            scrub.phase = phase;
            scrub.looks_back = matches!(request, Request::OldRead { .. });
        }
        Ok(())
    }

    /// Notes that a message was sent, if it is of a proposal: that is the one that its brick has open, and this is its newest phase.
    fn note_ballot(&mut self, packet: &Packet) -> Result<(), NoMem> {
        if let Message::Request(
            call,
            Request::Prepare { .. } | Request::Accept { .. },
        ) = &packet.message
        {
            let key = key_of(packet.from, call);
            self.proposals.insert(packet.from.0, (key, call.phase))?;
        }
        Ok(())
    }

    /// Notes that a message of a call was sent, in this phase, and answers the call's operation.
    fn note_call(&mut self, key: CallKey, phase: u32) -> Result<Option<u64>, NoMem> {
        if let Some(operation) = self.nameless.take() {
            self.numbers.insert(key, operation)?;
        }
        let number = self.numbers.get(&key).copied();
        if let Some(operation) = self.operations.get_mut(place_of(number.unwrap_or(0))) {
            operation.phase = operation.phase.max(phase);
        }
        Ok(number)
    }
}
