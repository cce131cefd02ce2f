//! Every message that was sent, and for each call a chain through its messages.

ghost use Rattle.std.specs.Prelude.{◌≡◌};
ghost use Rattle.world.specs.Sendings.{call_of, IsChained};

use fab_base::NoMem;
use messages::{Message, Packet};
use std::alloc::Global;
use std::collections::BTreeMap;

/// A call: its brick, how often the brick's store had been opened, and its number since then.
pub type CallKey = (u16, u32, u64);

/// Every message that was sent, in order. A chain leads from the last message of each call to its first, so that messages of others need not be
/// looked at. Only a line `calm` goes along it, so messages are chained when one asks for that, each of them once.
#[derive(Drop)]
pub struct Sendings {
    /// The messages.
    pub packets: Vec<Packet>,
    /// For each message that is chained, the place behind the one before it of its call; 0 where there is none.
    links: Vec<usize>,
    /// The place behind the last message of each call that is chained.
    ends: BTreeMap<CallKey, usize>,
    ghost chained: { IsChained packets.items links.items ends },
}

/// The call that a packet is a message of, if there is one.
fn call_of(packet: &Packet) -> Option<CallKey>
    ensures { result ≡ call_of packet.now }
{
    match &packet.message {
        Message::Request(call, _) => Some((packet.from.0, call.boot, call.seq)),
        Message::Reply(call, _) => Some((packet.to.0, call.boot, call.seq)),
        _ => None,
    }
}

impl Sendings {
    ghost use Rattle.std.specs.Prelude.{◌≡◌, ◌+◌, ◌<◌, ◌≤◌, ◌++◌, [], ◌∷◌, ℕ, Some, OnOk, length, slice_get, vec_len, vec_capacity};
    ghost use Rattle.messages.specs.declared.packets.Packet.{Packet};
    ghost use Rattle.world.specs.Sendings.{call_of, IsBehind, IsBetween};

    /// Nothing was sent yet.
    pub fn new(alloc: Global) -> Sendings
        ensures { result.packets.items ≡ [] }
    {
        Sendings {
            packets: Vec::new(alloc),
            links: Vec::new(alloc),
            ends: BTreeMap::new(alloc),
        }
    }

    /// Makes room for this many messages more.
    pub fn reserve(&mut self, count: usize) -> Result<(), NoMem>
        ensures room { OnOk result (vec_len self.new.packets + count ≤ vec_capacity self.new.packets) }
        ensures same { self.new.packets.items ≡ self.old.packets.items }
    {
        self.packets.reserve(count)?;
        Ok(())
    }

    /// Puts a message behind the others. There is room for it.
    pub fn put(&mut self, packet: Packet)
        requires { vec_len self.old.packets < vec_capacity self.old.packets }
        ensures items { self.new.packets.items ≡ self.old.packets.items ++ packet ∷ [] }
        ensures room { vec_capacity self.new.packets ≡ vec_capacity self.old.packets }
    {
        self.packets.push_reserved(packet);
    }

    /// Chains the messages that are not chained yet. One for which memory is refused stays so, and is looked at with those behind it.
    pub fn catch_up(&mut self)
        ensures { self.new.packets ≡ self.old.packets }
    {
        while self.links.len() < self.packets.len() {
            let Ok(()) = self.chain() else {
                return;
            };
        }
    }

    /// Chains the first message that is not chained yet.
    fn chain(&mut self) -> Result<(), NoMem>
        requires { vec_len self.old.links < vec_len self.old.packets }
        ensures packets { self.new.packets ≡ self.old.packets }
        ensures links { OnOk result (vec_len self.new.links ≡ vec_len self.old.links + 1) }
    {
        let place = self.links.len();
        self.links.reserve(1)?;
        let link = match call_of(&self.packets[place]) {
            Some(call) => self.ends.insert(call, place + 1)?.unwrap_or(0),
            None => 0,
        };
        self.links.push_reserved(link);
        Ok(())
    }

    /// A place behind every message of a call.
    pub fn end_of(&self, call: CallKey) -> usize
        ensures within { result ≤ vec_len self.now.packets }
        ensures behind { IsBehind self.now.packets.items call result }
    {
        if self.links.len() < self.packets.len() {
            return self.packets.len();
        }
        match self.ends.get(&call) {
            Some(end) => *end,
            None => 0,
        }
    }

    /// A place behind every message of a call that stands before this one of it.
    pub fn end_before(&self, place: usize) -> usize
        ensures before { result ≤ place }
        ensures between { (call : _) (packet : Packet) → slice_get self.now.packets.items place ≡ Some packet → call_of packet ≡ Some call
            → IsBetween self.now.packets.items call result place }
    {
        match self.links.get(place) {
            Some(link) => *link,
            None => place,
        }
    }
}
