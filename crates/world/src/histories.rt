//! What a world keeps beside its bricks: every message, every mark, and what is known of each operation.

ghost use Rattle.std.specs.Prelude.{◌≡◌, ◌+◌, ◌≤◌, ◌++◌, vec_len, vec_capacity};
ghost use Rattle.coord_phase.specs.Messages.{packets_from};
ghost use Rattle.std.specs.Option.{option_copied};
ghost use Rattle.protocol.specs.Worlds.{packet_of, is_answer};
ghost use Rattle.protocol.specs.Happenings.{writes};
ghost use Rattle.world.specs.Shown.{ChangesAt, made_kept, seen_kept, ended_kept, record_at, number_at, mark_kept};

use crate::call_numbers::CallNumbers;
use crate::deliveries::Deliveries;
use crate::sendings::Sendings;
use fab_base::{Answer, Ask, BrickId, Cause, GroupId, NoMem, Op, Stamp, StripeNo};
use messages::{Call, Messages, Packet};
use node::{Begun, Outs};
use protocol::{Answered, Report, Told};
use reg_model::Mark;
use std::alloc::Global;

/// The most packets that a step of a brick sends on a message, or as an operation, a proposal, a synchronisation or a scrub begins: one to each member of a view, and
/// one to each brick of a layout.
const MOST_PACKETS: usize = 96;

/// What is kept of an operation.
#[derive(Clone, Copy)]
pub struct OperationRecord {
    /// Its brick.
    pub brick: BrickId,
    /// How often the brick's store had been opened.
    pub boot: u32,
    /// The number of its call since then.
    pub seq: u64,
    /// The position of its Begin.
    pub begin: u64,
    /// The group that is asked.
    pub group: GroupId,
    /// The stripe that is asked.
    pub stripe: StripeNo,
    /// The version that it made, or read at once.
    pub version: Option<Stamp>,
    /// Whether it made its version.
    pub made: bool,
    /// The version that it made its own on, where that is a recovery's.
    pub base: Option<Stamp>,
    /// Whether it writes.
    pub writes: bool,
    /// Whether it was answered, and not aborted.
    pub answered: bool,
    /// The number of its marks, 0 where it has none.
    pub mark: u64,
}

/// What happened. Operations are by number, from 1: those that clients ask for, which have marks, and the reads of synchronisations and the scrubs, which have none.
/// The number of an operation is by its brick and call, a brick that starts again counting its calls from 1; and of one that has marks by these.
#[derive(Drop)]
pub struct History {
    pub sent: Sendings,
    pub delivered: Deliveries,
    pub marks: Vec<Mark>,
    /// What bricks reported of their proposals, synchronisations and scrubs, in order.
    pub reports: Vec<(BrickId, Report)>,
    pub operations: Vec<OperationRecord>,
    /// The number of each operation that has marks, in the order of their Begins.
    pub marked: Vec<u64>,
    pub calls: CallNumbers,
}

/// The packet of a number, counted from 1.
pub fn packet_at(sent: &[Packet], number: u64) -> Option<&Packet>
    ensures { option_copied result ≡ packet_of sent.now number }
{
    if number == 0 {
        return None;
    }
    sent.get((number - 1) as usize)
}

/// Whether an answer is none of an abort.
fn is_answer(answer: &Answer) -> bool
    ensures { result ≡ is_answer answer.now }
{
    match answer {
        Answer::Data(_) | Answer::Done => true,
        Answer::Aborted(_) => false,
    }
}

/// Whether an operation writes.
fn writes(op: &Op) -> bool
    ensures { result ≡ writes op.now }
{
    match op {
        Op::WriteBlock(_, _) | Op::WriteStripe(_) => true,
        Op::ReadBlock(_) | Op::ReadStripe => false,
    }
}

/// The operation of a number made a version, on this base.
fn note_made(operations: &mut [OperationRecord], number: u64, stamp: Stamp, base: Option<Stamp>)
    ensures { ChangesAt operations.old operations.new number (made_kept stamp base) }
{
    if number == 0 {
        return;
    }
    let place = (number - 1) as usize;
    if place >= operations.len() {
        return;
    }
    let kept = &mut operations[place];
    kept.version = Some(stamp);
    kept.made = true;
    kept.base = base;
}

/// The operation of a number read a version at once.
fn note_seen(operations: &mut [OperationRecord], number: u64, stamp: Stamp)
    ensures { ChangesAt operations.old operations.new number (seen_kept stamp) }
{
    if number == 0 {
        return;
    }
    let place = (number - 1) as usize;
    if place >= operations.len() {
        return;
    }
    operations[place].version = Some(stamp);
}

/// The operation of a number ended: answered, or aborted.
fn note_answer(operations: &mut [OperationRecord], number: u64, answered: bool)
    ensures { ChangesAt operations.old operations.new number (ended_kept answered) }
{
    if number == 0 {
        return;
    }
    let place = (number - 1) as usize;
    if place >= operations.len() {
        return;
    }
    operations[place].answered = answered;
}

/// Puts what a brick sends behind what was sent, in order. There is room for it.
fn put_packets(sent: &mut Sendings, brick: BrickId, messages: Messages)
    requires { vec_len sent.old.packets + vec_len messages ≤ vec_capacity sent.old.packets }
    ensures { sent.new.packets.items ≡ sent.old.packets.items ++ packets_from brick messages.items }
{
    for (to, message) in messages {
        sent.put(Packet {
            from: brick,
            to,
            message,
        });
    }
}

/// What is kept of the operation of a number. None where there is none.
pub fn record_at(operations: &[OperationRecord], number: u64) -> Option<OperationRecord>
    ensures { result ≡ record_at operations.now number }
{
    if number == 0 {
        return None;
    }
    operations.get((number - 1) as usize).copied()
}

/// The number of the marks of the operation of a number: its own number where there is no such operation.
fn mark_of(operations: &[OperationRecord], number: u64) -> u64
    ensures { result ≡ mark_kept operations.now number }
{
    match record_at(operations, number) {
        Some(kept) => kept.mark,
        None => number,
    }
}

impl History {
    ghost use Rattle.std.specs.Prelude.{◌≡◌, ◌+◌, ◌<◌, ◌≤◌, ◌++◌, ℕ, true, false, not, is_some, if◌then◌else◌, nat_eq, get_or, length, option_to_list, OnOk, OnErr, vec_len, vec_capacity};
    ghost use Rattle.fab_base.specs.Layouts.{Layout};
    ghost use Rattle.coord_phase.specs.Messages.{packets_from};
    ghost use Rattle.protocol.specs.Worlds.{first_world, reports_of};
    ghost use Rattle.world.specs.CallNumbers.{HasCallRoom, calls_in, call_at};
    ghost use Rattle.world.specs.Shown.{Tells, HasStepRoom, HasReadRoom, most_sent, reads_begun};
    ghost use Rattle.world.specs.Noted.{IsSameHistory, NotesBegin, NotesRead, NotesCrash, ChangesCall, NotesTold, NotesEnds, NotesStep, NotesProposal, calls_aside};

    /// Nothing yet.
    #[tactic(auto, using(crate::proofs::CallNumbers::none_called))]
    pub fn new(alloc: Global) -> History
        ensures { (layout : Layout) → Tells result (first_world layout) }
    {
        History {
            sent: Sendings::new(alloc),
            delivered: Deliveries::new(alloc),
            marks: Vec::new(alloc),
            reports: Vec::new(alloc),
            operations: Vec::new(alloc),
            marked: Vec::new(alloc),
            calls: CallNumbers::new(alloc),
        }
    }

    /// Makes room for what one step of a brick adds.
    pub fn make_room(&mut self) -> Result<(), NoMem>
        ensures room { OnOk result (HasStepRoom self.new) }
        ensures same { IsSameHistory self.old self.new }
    {
        self.sent.reserve(MOST_PACKETS)?;
        self.marks.reserve(1)?;
        self.reports.reserve(1)?;
        self.operations.reserve(1)?;
        self.marked.reserve(1)?;
        Ok(())
    }

    /// Makes room for what one step of a brick adds, where that opens a call: an operation, a proposal, a scrub, or a read of a synchronisation.
    pub fn expect_call(&mut self, alloc: Global, brick: BrickId) -> Result<(), NoMem>
        ensures room { OnOk result (HasStepRoom self.new) }
        ensures call { OnOk result (HasCallRoom self.new.calls brick.0) }
        ensures same { IsSameHistory self.old self.new }
    {
        self.make_room()?;
        self.calls.reserve(alloc, brick)?;
        Ok(())
    }

    /// Notes that the message of a number was delivered. There is room for it.
    pub fn deliver(&mut self, number: u64)
        requires some { 1 ≤ number }
        requires delivery { number ≤ vec_len self.old.delivered.reached }
        requires room { HasStepRoom self.old }
        ensures delivered { (k : ℕ) → get_or self.new.delivered.reached.items k false
            ≡ if nat_eq (k + 1) number then true else get_or self.old.delivered.reached.items k false }
        ensures rest { self.new ≡ record self.old { delivered = self.new.delivered } }
        ensures room { HasStepRoom self.new }
        ensures calls { self.new.calls ≡ self.old.calls }
    {
        self.delivered.note(number);
    }

    /// The number of the operation of a brick's call. None where there is no such call.
    fn number(&self, brick: BrickId, seq: u64) -> Option<u64>
        ensures { result ≡ call_at (calls_in self.now.calls brick.0) seq }
    {
        self.calls.number(brick, seq)
    }

    /// The number of the operation whose marks have this number, 0 where there is none.
    pub fn number_marked(&self, mark: u64) -> u64
        ensures { result ≡ number_at self.now.marked.items mark }
    {
        if mark == 0 {
            return 0;
        }
        match self.marked.get((mark - 1) as usize) {
            Some(number) => *number,
            None => 0,
        }
    }

    /// Notes what a brick sends, in order.
    fn send(&mut self, brick: BrickId, messages: Messages)
        requires { vec_len self.old.sent.packets + vec_len messages ≤ vec_capacity self.old.sent.packets }
        ensures items { self.new.sent.packets.items ≡ self.old.sent.packets.items ++ packets_from brick messages.items }
        ensures rest { self.new ≡ record self.old { sent = self.new.sent } }
    {
        put_packets(&mut self.sent, brick, messages);
    }

    /// Makes room for messages, and notes that a brick sends them.
    pub fn send_more(&mut self, brick: BrickId, messages: Messages) -> Result<(), NoMem>
        ensures items { OnOk result (self.new.sent.packets.items ≡ self.old.sent.packets.items ++ packets_from brick messages.items) }
        ensures err { OnErr result (self.new.sent.packets.items ≡ self.old.sent.packets.items) }
        ensures rest { self.new ≡ record self.old { sent = self.new.sent } }
    {
        self.sent.reserve(messages.len())?;
        self.send(brick, messages);
        Ok(())
    }

    /// Chains what was sent, so that the messages of an operation are found among their own.
    pub fn chain_sent(&mut self)
        ensures { IsSameHistory self.old self.new }
    {
        self.sent.catch_up();
    }

    /// Notes that a brick stops.
    pub fn crash(&mut self, brick: BrickId)
        requires { HasStepRoom self.old }
        ensures { NotesCrash self.old self.new brick }
    {
        let position = self.marks.len() as u64;
        self.marks.push_reserved(Mark::Crash { position, brick });
        self.calls.clear(brick);
    }

    /// Notes an operation that begins, and what it sends.
    pub fn begin(&mut self, brick: BrickId, boot: u32, ask: Ask, begun: Begun)
        requires room { HasStepRoom self.old }
        requires call { HasCallRoom self.old.calls brick.0 }
        requires few { vec_len begun.messages ≤ most_sent }
        ensures { NotesBegin self.old self.new brick boot ask begun }
    {
        let Begun { seq, messages } = begun;
        let position = self.marks.len() as u64;
        let number = self.operations.len() as u64 + 1;
        let operation = self.marked.len() as u64 + 1;
        self.operations.push_reserved(OperationRecord {
            brick,
            boot,
            seq,
            begin: position,
            group: ask.group,
            stripe: ask.stripe,
            version: None,
            made: false,
            base: None,
            writes: writes(&ask.op),
            answered: false,
            mark: operation,
        });
        self.marked.push_reserved(number);
        self.calls.add(brick, number);
        self.marks.push_reserved(Mark::Begin {
            position,
            operation,
            brick,
            ask,
        });
        self.send(brick, messages);
    }

    /// The operation of a brick's call made a version, on this base.
    fn made(&mut self, brick: BrickId, seq: u64, stamp: Stamp, base: Option<Stamp>)
        ensures { ChangesCall self.old self.new brick.0 seq (made_kept stamp base) }
    {
        if let Some(number) = self.number(brick, seq) {
            note_made(&mut self.operations, number, stamp, base);
        }
    }

    /// The operation of a brick's call read a version at once.
    fn seen(&mut self, brick: BrickId, seq: u64, stamp: Stamp)
        ensures { ChangesCall self.old self.new brick.0 seq (seen_kept stamp) }
    {
        if let Some(number) = self.number(brick, seq) {
            note_seen(&mut self.operations, number, stamp);
        }
    }

    /// The operation of a brick's call, which has no marks, ended: aborted by this cause, or answered.
    fn closed(&mut self, brick: BrickId, seq: u64, cause: Option<Cause>)
        ensures { ChangesCall self.old self.new brick.0 seq (ended_kept (not (is_some cause))) }
    {
        if let Some(number) = self.number(brick, seq) {
            note_answer(&mut self.operations, number, cause.is_none());
        }
    }

    /// Notes that a brick begins a scrub, or a read of a synchronisation, under its next call: an operation without marks.
    fn open_read(&mut self, brick: BrickId, call: Call)
        requires { HasReadRoom self.old brick }
        ensures { NotesRead self.old self.new brick call }
    {
        let begin = self.marks.len() as u64;
        let number = self.operations.len() as u64 + 1;
        self.operations.push_reserved(OperationRecord {
            brick,
            boot: call.boot,
            seq: call.seq,
            begin,
            group: call.group,
            stripe: call.stripe,
            version: None,
            made: false,
            base: None,
            writes: false,
            answered: false,
            mark: 0,
        });
        self.calls.add(brick, number);
    }

    /// Notes what a step told, if anything. There is room for a read that it told to begin.
    fn tell(&mut self, brick: BrickId, told: Option<Told>)
        requires { 1 ≤ reads_begun (option_to_list told) → HasReadRoom self.old brick }
        ensures told { NotesTold brick (option_to_list told) self.old self.new }
        ensures rest { self.new ≡ record self.old { operations = self.new.operations; calls = self.new.calls } }
        ensures room { reads_begun (option_to_list told) ≡ 0 → HasReadRoom self.old brick → HasReadRoom self.new brick }
    {
        match told {
            None => {}
            Some(Told::Made { seq, stamp, base }) => self.made(brick, seq, stamp, base),
            Some(Told::Seen { seq, stamp }) => self.seen(brick, seq, stamp),
            Some(Told::Began { call }) => self.open_read(brick, call),
            Some(Told::Closed { seq, cause }) => self.closed(brick, seq, cause),
        }
    }

    /// Notes the answer that a step gave, if one.
    fn answer(&mut self, brick: BrickId, answer: Option<Answered>)
        requires { vec_len self.old.marks < vec_capacity self.old.marks }
        ensures ended { NotesEnds brick (option_to_list answer) self.old self.new }
        ensures rest { self.new ≡ record self.old { operations = self.new.operations; marks = self.new.marks } }
    {
        let Some(Answered { seq, answer }) = answer else {
            return;
        };
        let Some(number) = self.number(brick, seq) else {
            return;
        };
        note_answer(&mut self.operations, number, is_answer(&answer));
        let position = self.marks.len() as u64;
        let operation = mark_of(&self.operations, number);
        self.marks.push_reserved(Mark::End {
            position,
            operation,
            answer,
        });
    }

    /// Notes what a step reported, if anything.
    fn report(&mut self, brick: BrickId, report: Option<Report>)
        requires { vec_len self.old.reports < vec_capacity self.old.reports }
        ensures items { self.new.reports.items ≡ self.old.reports.items ++ reports_of brick (option_to_list report) }
        ensures rest { self.new ≡ record self.old { reports = self.new.reports } }
    {
        if let Some(report) = report {
            self.reports.push_reserved((brick, report));
        }
    }

    /// Notes what a step told, answered, sent and reported.
    pub fn step(&mut self, brick: BrickId, outs: Outs)
        requires room { HasStepRoom self.old }
        requires call { HasCallRoom self.old.calls brick.0 }
        requires few { length outs.messages ≤ most_sent }
        requires one { reads_begun outs.told ≤ 1 }
        ensures { NotesStep self.old self.new brick outs }
    {
        let (messages, told, answer, report) = outs.into_parts();
        self.tell(brick, told.version);
        self.tell(brick, told.ended);
        self.tell(brick, told.begun);
        self.answer(brick, answer);
        self.send(brick, messages);
        self.report(brick, report);
    }

    /// Notes the call that a brick used up as it was asked to propose, which is of no operation: it used up none if it reported at once.
    fn count_call(&mut self, brick: BrickId, report: &Option<Report>)
        requires { HasCallRoom self.old.calls brick.0 }
        ensures calls { (i : ℕ) → calls_in self.new.calls i ≡ calls_aside self.old.calls brick.0 (option_to_list report.now) i }
        ensures rest { self.new ≡ record self.old { calls = self.new.calls } }
    {
        if report.is_none() {
            self.calls.add(brick, 0);
        }
    }

    /// Notes what a brick that is asked to propose sends and reports. It has used up a call, which is of no operation, unless it reports at once.
    pub fn propose(&mut self, brick: BrickId, outs: Outs)
        requires room { HasStepRoom self.old }
        requires call { HasCallRoom self.old.calls brick.0 }
        requires few { length outs.messages ≤ most_sent }
        ensures { NotesProposal self.old self.new brick outs }
    {
        let (messages, _, _, report) = outs.into_parts();
        self.count_call(brick, &report);
        self.send(brick, messages);
        self.report(brick, report);
    }
}
