//! Messages go out as datagrams.

ghost use Rattle.std.specs.Prelude.{◌≡◌, ◌∷◌, [], IfErr, OnOk, OnErr, MatchResult};
ghost use Rattle.fab_io.specs.Ends.{Kept};
ghost use Rattle.fab_io.specs.Datagrams.{Stays, Grows};
ghost use Rattle.serving.specs.Datagrams.{datagrams_of, GrowsFront};
ghost use Rattle.serving.specs.Faults.{AtLink};
ghost use Rattle.serving.specs.Sending.{addressed};

use crate::faults::ServeFault;
use crate::ports::Ports;
use crate::spellings::has_spelling;
use fab_base::BrickId;
use fab_io::{IoFault, Link};
use fab_wire::encode;
use messages::Message;
use std::alloc::Global;

/// Sends a message to a port as a datagram, where it has a spelling and there is such a port.
pub(crate) fn send<L: Link>(
    alloc: Global,
    link: &mut L,
    port: u32,
    message: &Message,
) -> Result<(), ServeFault>
    ensures waiting { Stays (L.waiting link.old) (L.waiting link.new) }
    ensures sent { MatchResult result (λ _. Grows (L.sent link.old) (L.sent link.new) (datagrams_of ((port, message.now) ∷ []))) (λ _. Stays (L.sent link.old) (L.sent link.new)) }
    ensures only { IfErr result AtLink }
    ensures kept { Kept (L.faults link.old) (L.faults link.new) (L.sound link.old) (L.sound link.new) (result ≡ Err ServeFault.Link) }
{
    let Ok(port) = u16::try_from(port) else {
        return Ok(());
    };
    if !has_spelling(message) {
        return Ok(());
    }
    let bytes = encode(alloc, message)?;
    match link.send(port, bytes.as_slice()) {
        Ok(()) => Ok(()),
        Err(IoFault::Failed) => Err(ServeFault::Link),
        Err(IoFault::NoMemory) => Err(ServeFault::NoMemory),
    }
}

/// Sends messages to the ports of their receivers, in order.
pub(crate) fn send_all<L: Link>(
    alloc: Global,
    link: &mut L,
    ports: Ports,
    messages: &[(BrickId, Message)],
) -> Result<(), ServeFault>
    ensures waiting { Stays (L.waiting link.old) (L.waiting link.new) }
    ensures sent { OnOk result (Grows (L.sent link.old) (L.sent link.new) (datagrams_of (addressed ports messages.now))) }
    ensures front { OnErr result (GrowsFront (L.sent link.old) (L.sent link.new) (datagrams_of (addressed ports messages.now))) }
    ensures only { IfErr result AtLink }
    ensures kept { Kept (L.faults link.old) (L.faults link.new) (L.sound link.old) (L.sound link.new) (result ≡ Err ServeFault.Link) }
{
    for (to, message) in messages {
        send(alloc, link, ports.port_of(*to), message)?;
    }
    Ok(())
}
