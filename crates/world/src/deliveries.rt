//! Which messages were delivered: what an operation that is to run alone asks for.

ghost use Rattle.std.specs.Prelude.{◌≡◌, ◌<◌, ◌≤◌, true, false, length, map, nat_eq};
ghost use Rattle.std.specs.List.{list_any};
ghost use Rattle.protocol.specs.Calms.{is_one_of, goes_among};
ghost use Rattle.world.specs.Runs.{brick_of};
ghost use Rattle.world.specs.Deliveries.{is_of};
ghost use Rattle.world.specs.Deliveries.{is_call as of_call};
ghost use Rattle.world.specs.Sendings.{IsBetween};

use crate::histories::OperationRecord;
use crate::sendings::{CallKey, Sendings};
use fab_base::{BrickId, NoMem};
use messages::{Call, Message, Packet, Request};
use std::alloc::Global;

/// Which messages were delivered.
#[derive(Drop)]
pub struct Deliveries {
    /// Whether each message was, by number from 1. None past the end was.
    pub reached: Vec<bool>,
}

/// Whether a number is one of these.
fn is_among(numbers: &[u64], number: u64) -> bool
    ensures { result ≡ list_any (λ one. nat_eq one number) numbers.now }
{
    numbers.iter().any(|one| *one == number)
}

/// Whether a brick is one of these.
fn is_one_of(bricks: &[u64], brick: BrickId) -> bool
    ensures { result ≡ is_one_of (map brick_of bricks.now) brick }
{
    is_among(bricks, u64::from(brick.0))
}

/// Whether a packet is a request to one of these bricks, but no Collect, or a reply of one of them.
pub fn goes_among(bricks: &[u64], packet: &Packet) -> bool
    ensures { result ≡ goes_among (map brick_of bricks.now) packet.now }
{
    match &packet.message {
        Message::Request(_, request) => match request {
            Request::Collect { .. } => false,
            _ => is_one_of(bricks, packet.to),
        },
        Message::Reply(_, _) => is_one_of(bricks, packet.from),
        _ => false,
    }
}

/// Whether a call is the operation's.
fn is_call(operation: OperationRecord, call: &Call) -> bool
    ensures { result ≡ of_call call.now operation.boot operation.seq }
{
    call.boot == operation.boot && call.seq == operation.seq
}

/// Whether a packet is a message of the operation.
pub fn is_of(operation: OperationRecord, packet: &Packet) -> bool
    ensures { result ≡ is_of operation.brick.0 operation.boot operation.seq packet.now }
{
    match &packet.message {
        Message::Request(call, _) => {
            packet.from.0 == operation.brick.0 && is_call(operation, call)
        }
        Message::Reply(call, _) => packet.to.0 == operation.brick.0 && is_call(operation, call),
        _ => false,
    }
}

/// The call of the operation.
fn call_of(operation: OperationRecord) -> CallKey
    ensures { result ≡ (operation.brick.0, operation.boot, operation.seq) }
{
    (operation.brick.0, operation.boot, operation.seq)
}

/// A place behind every message of the operation that stands before this one.
fn end_before(sent: &Sendings, operation: OperationRecord, place: usize) -> usize
    requires { place < length sent.now.packets.items }
    ensures before { result ≤ place }
    ensures between { IsBetween sent.now.packets.items (operation.brick.0, operation.boot, operation.seq) result place }
{
    if is_of(operation, &sent.packets[place]) {
        sent.end_before(place)
    } else {
        place
    }
}

impl Deliveries {
    ghost use Rattle.std.specs.Prelude.{◌≡◌, ◌+◌, ◌≤◌, ℕ, OnOk, Some, false, vec_len, get_or, if◌then◌else◌, nat_eq};
    ghost use Rattle.world.specs.Deliveries.{IsUntouchedAt, FindsLeft, is_left_at, is_noted};

    /// None yet.
    pub fn new(alloc: Global) -> Deliveries
        ensures { (k : ℕ) → get_or result.reached.items k false ≡ false }
    {
        Deliveries {
            reached: Vec::new(alloc),
        }
    }

    /// Makes room for the note that the message of a number was delivered.
    pub fn expect(&mut self, number: u64) -> Result<(), NoMem>
        ensures room { OnOk result (number ≤ vec_len self.new.reached) }
        ensures same { (k : ℕ) → get_or self.new.reached.items k false ≡ get_or self.old.reached.items k false }
    {
        while (self.reached.len() as u64) < number {
            self.reached.push(false)?;
        }
        Ok(())
    }

    /// Notes that the message of a number was delivered. There is room for it.
    pub fn note(&mut self, number: u64)
        requires some { 1 ≤ number }
        requires room { number ≤ vec_len self.old.reached }
        ensures { (k : ℕ) → get_or self.new.reached.items k false
            ≡ if nat_eq (k + 1) number then true else get_or self.old.reached.items k false }
    {
        let place = (number - 1) as usize;
        self.reached[place] = true;
    }

    /// Whether the message of a number, from 1, was delivered.
    fn is_reached(&self, place: usize) -> bool
        ensures { result ≡ get_or self.now.reached.items place false }
    {
        match self.reached.get(place) {
            Some(reached) => *reached,
            None => false,
        }
    }

    /// Whether the message of a number was delivered. There is none of number 0.
    pub fn was_delivered(&self, number: u64) -> bool
        ensures { result ≡ is_noted self.now.reached.items number }
    {
        if number == 0 {
            return false;
        }
        self.is_reached((number - 1) as usize)
    }

    /// Whether no message of an operation was delivered, of those that were sent.
    pub fn is_untouched(&self, sent: &Sendings, operation: OperationRecord) -> bool
        ensures { IsUntouchedAt self.now.reached.items sent.now.packets.items operation result }
    {
        let mut end = sent.end_of(call_of(operation));
        while end > 0 {
            let place = end - 1;
            if is_of(operation, &sent.packets[place]) && self.is_reached(place) {
                return false;
            }
            end = end_before(sent, operation, place);
        }
        true
    }

    /// Whether the message at a place is one of the operation among these bricks, and was not delivered.
    fn is_left(
        &self,
        packet: &Packet,
        operation: OperationRecord,
        bricks: &[u64],
        place: usize,
    ) -> bool
        ensures { result ≡ is_left_at self.now.reached.items operation bricks.now place packet.now }
    {
        is_of(operation, packet) && !self.is_reached(place) && goes_among(bricks, packet)
    }

    /// The place of the first message from this one on that is left to an operation that runs alone among these bricks.
    pub fn next_left(
        &self,
        sent: &Sendings,
        operation: OperationRecord,
        bricks: &[u64],
        from: usize,
    ) -> Option<usize>
        ensures { FindsLeft self.now.reached.items operation bricks.now from sent.now.packets.items result }
    {
        let mut found = None;
        let mut end = sent.end_of(call_of(operation));
        while end > from {
            let place = end - 1;
            if self.is_left(&sent.packets[place], operation, bricks, place) {
                found = Some(place);
            }
            end = end_before(sent, operation, place);
        }
        found
    }
}
