//! The reply that a client takes.

ghost use Rattle.std.specs.Prelude.{◌≡◌, ◌≤◌, ◌∷◌, [], List, Option, length, IfOk, IfErr, OnErr, Some};
ghost use Rattle.fab_io.specs.declared.links.Datagram.{Datagram};
ghost use Rattle.fab_io.specs.Datagrams.{Stays};
ghost use Rattle.fab_io.specs.Ends.{Kept};
ghost use Rattle.hosting.specs.Asks.{end_of, answers, ends, Hears};
ghost use Rattle.hosting.specs.Faults.{AtClientLink};
ghost use Rattle.serving.specs.Datagrams.{Looked};

use crate::faults::HostFault;
use crate::rooms::Room;
use fab_base::{Answer, NoMem, Refusal};
use fab_io::{IoFault, Link};
use fab_wire::{WireFault, decode};
use messages::{ClientAnswer, Message};
use std::alloc::Global;

/// What an operation is to be answered, unless it is aborted or refused.
#[derive(Clone, Copy)]
pub enum Wanted {
    /// So many bytes.
    Bytes(usize),
    /// That it is done.
    Done,
}

/// How an operation ended, as its reply says it.
fn end_of(said: ClientAnswer) -> Result<Answer, Refusal>
    ensures { result ≡ end_of said }
{
    match said {
        ClientAnswer::Ended(answer) => Ok(answer),
        ClientAnswer::Refused(refusal) => Err(refusal),
    }
}

/// Whether this ends the operation.
fn ends(wanted: Wanted, end: &Result<Answer, Refusal>) -> bool
    ensures { result ≡ ends wanted end.now }
{
    match end {
        Ok(Answer::Data(bytes)) => match wanted {
            Wanted::Bytes(count) => bytes.len() == count,
            Wanted::Done => false,
        },
        Ok(Answer::Done) => match wanted {
            Wanted::Bytes(_) => false,
            Wanted::Done => true,
        },
        Ok(Answer::Aborted(_)) | Err(_) => true,
    }
}

/// How the invocation of this number ended, where a datagram is the reply to it from the port that was asked.
fn read_reply(
    alloc: Global,
    from: u16,
    port: u16,
    id: u64,
    wanted: Wanted,
    bytes: &[u8],
) -> Result<Option<Result<Answer, Refusal>>, NoMem>
    ensures { IfOk result (λ heard. Hears port id wanted (Some (record { port = from; bytes = bytes.now })) heard) }
{
    match decode(alloc, bytes) {
        Ok(Message::ClientReply { id: of, answer }) => {
            let end = end_of(answer);
            if from == port && of == id && ends(wanted, &end) {
                Ok(Some(end))
            } else {
                Ok(None)
            }
        }
        Ok(_) | Err(WireFault::Malformed { .. }) => Ok(None),
        Err(WireFault::NoMemory) => Err(NoMem::NoMemory),
    }
}

/// Looks at the client's link once, for the reply to the invocation of this number, and answers how that ended. Anything else is dropped.
pub(crate) fn hear<L: Link>(
    alloc: Global,
    link: &mut L,
    room: &mut Room,
    port: u16,
    id: u64,
    wanted: Wanted,
) -> Result<Option<Result<Answer, Refusal>>, HostFault>
    ensures heard { IfOk result (λ heard. (came : Option Datagram) × Looked (L.waiting link.old) (L.waiting link.new) (came ∷ [])
        × Hears port id wanted came heard) }
    ensures lost { OnErr result ((lost : List (Option Datagram)) × (length lost ≤ 1) × Looked (L.waiting link.old) (L.waiting link.new) lost) }
    ensures sent { Stays (L.sent link.old) (L.sent link.new) }
    ensures only { IfErr result AtClientLink }
    ensures kept { Kept (L.faults link.old) (L.faults link.new) (L.sound link.old) (L.sound link.new) (result ≡ Err HostFault.ClientLink) }
{
    match room.recv(link) {
        Ok(None) => Ok(None),
        Ok(Some((from, length))) => {
            let reply = read_reply(alloc, from, port, id, wanted, &room.bytes()[..length])?;
            Ok(reply)
        }
        Err(IoFault::Failed) => Err(HostFault::ClientLink),
        Err(IoFault::NoMemory) => Err(HostFault::NoMemory),
    }
}
