//! What a datagram is to a brick.

ghost use Rattle.std.specs.Prelude.{◌≡◌, ◌≤◌, Some, IfOk};
ghost use Rattle.serving.specs.Turns.{malformed_count};
ghost use Rattle.serving.specs.Incomings.{handed, incoming_of, IsIncoming};

use crate::clients::Client;
use crate::ports::Ports;
use fab_base::{Ask, BrickId, NoMem};
use fab_wire::{WireFault, decode};
use messages::{Message, Packet};
use std::alloc::Global;

/// What came to a brick in a turn.
#[derive(Drop)]
pub enum Incoming {
    /// No datagram.
    Nothing,
    /// A datagram that is no message.
    Malformed,
    /// A message that is not for a brick: it came from a port that is no brick's, or is a client's answer.
    Dropped,
    /// A brick's message.
    Handed(Packet),
    /// A client's invocation.
    Asked(Client, Ask),
}

/// A message of the brick whose port it came from, for this one.
fn handed(me: BrickId, message: Message, from: Option<BrickId>) -> Incoming
    ensures { result ≡ handed me message from }
{
    match from {
        Some(from) => Incoming::Handed(Packet {
            from,
            to: me,
            message,
        }),
        None => Incoming::Dropped,
    }
}

/// What a message that came from a port is to a brick.
fn incoming_of(ports: Ports, me: BrickId, port: u16, message: Message) -> Incoming
    ensures { result ≡ incoming_of ports me port message }
{
    match message {
        Message::Client(asked) => {
            let client = Client { id: asked.id, port };
            Incoming::Asked(client, asked.into_ask())
        }
        Message::ClientReply { .. } => Incoming::Dropped,
        other => handed(me, other, ports.brick_at(port)),
    }
}

/// What a datagram from a port is to a brick.
pub(crate) fn read_datagram(
    alloc: Global,
    ports: Ports,
    me: BrickId,
    port: u16,
    bytes: &[u8],
) -> Result<Incoming, NoMem>
    ensures { IfOk result (λ incoming. IsIncoming ports me (Some (record { port = port; bytes = bytes.now })) incoming) }
{
    match decode(alloc, bytes) {
        Ok(message) => Ok(incoming_of(ports, me, port, message)),
        Err(WireFault::Malformed { .. }) => Ok(Incoming::Malformed),
        Err(WireFault::NoMemory) => Err(NoMem::NoMemory),
    }
}

/// How many datagrams came that are no message: one, or none.
pub(crate) fn malformed_count(incoming: &Incoming) -> u64
    ensures value { result ≡ malformed_count incoming.now }
    ensures few { result ≤ 1 }
{
    match incoming {
        Incoming::Malformed => 1,
        Incoming::Nothing | Incoming::Dropped | Incoming::Handed(_) | Incoming::Asked(_, _) => 0,
    }
}
