//! What a turn begins with: a look at the link, and a reading of the clock.

ghost use Rattle.std.specs.Prelude.{◌≡◌, ◌≤◌, ◌∷◌, [], List, Option, IfOk, IfErr, OnErr, length, MatchResult};
ghost use Rattle.fab_io.specs.Ends.{Kept};
ghost use Rattle.fab_io.specs.Datagrams.{Stays};
ghost use Rattle.fab_io.specs.Moments.{Passes};
ghost use Rattle.fab_io.specs.declared.links.Datagram.{Datagram};
ghost use Rattle.serving.specs.Datagrams.{Looked};
ghost use Rattle.serving.specs.Faults.{AtLink, AtClock};
ghost use Rattle.serving.specs.Incomings.{IsIncoming};

use crate::faults::ServeFault;
use crate::incomings::{Incoming, read_datagram};
use crate::ports::Ports;
use fab_base::BrickId;
use fab_io::{Clock, IoFault, Link};
use std::alloc::Global;

/// The most bytes of a datagram that are looked at: the room that a turn needs.
pub const MOST_BYTES: usize = 65_535;

/// Looks at the link once.
pub(crate) fn look<L: Link>(
    alloc: Global,
    ports: Ports,
    me: BrickId,
    link: &mut L,
    room: &mut [u8],
) -> Result<Incoming, ServeFault>
    requires { length room.old ≡ 65535 }
    ensures came { IfOk result (λ incoming. (came : Option Datagram) × Looked (L.waiting link.old) (L.waiting link.new) (came ∷ [])
        × IsIncoming ports me came incoming) }
    ensures lost { OnErr result ((lost : List (Option Datagram)) × (length lost ≤ 1) × Looked (L.waiting link.old) (L.waiting link.new) lost) }
    ensures sent { Stays (L.sent link.old) (L.sent link.new) }
    ensures only { IfErr result AtLink }
    ensures kept { Kept (L.faults link.old) (L.faults link.new) (L.sound link.old) (L.sound link.new) (result ≡ Err ServeFault.Link) }
{
    match link.recv(room) {
        Ok(None) => Ok(Incoming::Nothing),
        Ok(Some((port, length))) => Ok(read_datagram(alloc, ports, me, port, &room[..length])?),
        Err(IoFault::Failed) => Err(ServeFault::Link),
        Err(IoFault::NoMemory) => Err(ServeFault::NoMemory),
    }
}

/// The moment that the clock gives.
pub(crate) fn read_clock<C: Clock>(clock: &mut C) -> Result<u64, ServeFault>
    ensures gives { MatchResult result (λ now. Passes (C.coming clock.old) (C.coming clock.new) (now ∷ [])) (λ _. Passes (C.coming clock.old) (C.coming clock.new) []) }
    ensures only { IfErr result AtClock }
    ensures kept { Kept (C.faults clock.old) (C.faults clock.new) (C.sound clock.old) (C.sound clock.new) (result ≡ Err ServeFault.Clock) }
{
    match clock.now() {
        Ok(now) => Ok(now),
        Err(IoFault::Failed) => Err(ServeFault::Clock),
        Err(IoFault::NoMemory) => Err(ServeFault::NoMemory),
    }
}
