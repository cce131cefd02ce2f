//! The bricks that a process hosts: each with its node and its link, and all with one clock.

ghost use Rattle.std.specs.Prelude.{◌≡◌, ◌∷◌, [], ◌++◌, ◌<◌, length, IfOk, MatchResult};
ghost use Rattle.hosting.specs.Hosted.{Hosted, Begins, TakesLast, IsTurn, TakeTurns, StopTurns};

use crate::faults::HostFault;
use crate::rounds::Bricks;
use fab_disk::Disk;
use fab_io::{Clock, Link};
use node::Node;
use serving::{MOST_BYTES, ServeFault, Server};
use std::alloc::{AllocError, Global};
use std::marker::Model;

/// A brick that a process hosts: what it knows beside its node, its node, and its link.
///
/// A clause sees the clients that wait, the last tick, the node and the link, since what a clause sees is data.
#[derive(Drop)]
struct HostedBrick<D: Disk, L: Link> {
    server: Server,
    node: Node<D>,
    link: L,
}

impl<D: Disk, L: Link> Model for HostedBrick<D, L> {
    ghost use Rattle.hosting.specs.Hosted.{Hosted, IsHosted};

    ghost Value = { Hosted D L };

    ghost view = { λ b. record { waiting = b.server.clients.waiting.entries; ticked = b.server.ticked; node = b.node; link = b.link } };

    ghost invariant = { λ b. IsHosted b.server b.node };
}

impl<D: Disk, L: Link> HostedBrick<D, L> {
    /// The brick of this node begins to serve.
    fn new(alloc: Global, node: Node<D>, link: L) -> HostedBrick<D, L>
        ensures { Begins result node link }
    {
        let server = Server::new(alloc, &node);
        HostedBrick { server, node, link }
    }

    /// Its node and its link.
    fn into_parts(self) -> (Node<D>, L)
        ensures { result ≡ (self.node, self.link) }
    {
        let HostedBrick {
            server: _,
            node,
            link,
        } = self;
        (node, link)
    }

    /// Takes a turn. `Halted` exactly where its disk failed in an earlier one.
    fn take_turn<C: Clock>(&mut self, clock: &mut C, room: &mut [u8]) -> Result<u64, ServeFault>
        requires { length room.old ≡ 65535 }
        ensures { IsTurn D.Disk L.Link C.Clock self.old self.new clock.old clock.new result }
    {
        if self.node.is_halted() {
            return Err(ServeFault::Halted);
        }
        self.server
            .take_turn(&mut self.node, &mut self.link, clock, room)
    }
}

/// Has each of these bricks take a turn, in order.
fn take_turns<D: Disk, L: Link, C: Clock>(
    bricks: &mut [HostedBrick<D, L>],
    clock: &mut C,
    room: &mut [u8],
) -> Result<(), ServeFault>
    requires { length room.old ≡ 65535 }
    ensures { MatchResult result (λ _. TakeTurns D.Disk L.Link C.Clock bricks.old bricks.new clock.old clock.new)
        (λ fault. StopTurns D.Disk L.Link C.Clock fault bricks.old bricks.new clock.old clock.new) }
{
    for brick in bricks.iter_mut() {
        brick.take_turn(clock, room)?;
    }
    Ok(())
}

/// The bricks that a process hosts, in the order in which they were added, and room for one datagram.
///
/// A clause sees each brick, with what it serves, its node and its link, and how many bricks there is room for.
pub struct HostedBricks<D: Disk, L: Link> {
    alloc: Global,
    bricks: Vec<HostedBrick<D, L>>,
    room: Vec<u8>,
}

impl<D: Disk + Drop, L: Link + Drop> Drop for HostedBricks<D, L> {
    // Written out, it is proved once: a derived one is proved anew, with that of each part, in each crate above that lets one go.
    fn drop(self) {
        let Self {
            alloc: _,
            bricks: _,
            room: _,
        } = self;
    }
}

impl<D: Disk, L: Link> Model for HostedBricks<D, L> {
    ghost use Rattle.std.specs.Prelude.{◌≡◌, length, vec_capacity};
    ghost use Rattle.hosting.specs.Hosted.{Hosting};

    ghost Value = { Hosting D L };

    ghost view = { λ h. record { bricks = h.bricks.items; room = vec_capacity h.bricks } };

    ghost invariant = { λ h. length h.room.items ≡ 65535 };
}

impl<D: Disk, L: Link> HostedBricks<D, L> {
    /// No brick yet, with room for so many, so that none is opened that can't be added.
    pub fn new(alloc: Global, count: usize) -> Result<HostedBricks<D, L>, AllocError>
        ensures bricks { IfOk result (λ hosted. hosted.bricks ≡ []) }
        ensures room { IfOk result (λ hosted. hosted.room ≡ count) }
    {
        let room = vec![in alloc; 0u8; MOST_BYTES]?;
        let bricks = Vec::with_capacity(alloc, count)?;
        Ok(HostedBricks {
            alloc,
            bricks,
            room,
        })
    }

    /// Adds a brick behind the others. It begins to serve: no client waits, and no tick was. There has to be room for it.
    pub fn add(&mut self, node: Node<D>, link: L)
        requires { length self.old.bricks < self.old.room }
        ensures bricks { (brick : Hosted D L) × (self.new.bricks ≡ self.old.bricks ++ brick ∷ []) × Begins brick node link }
        ensures room { self.new.room ≡ self.old.room }
    {
        let brick = HostedBrick::new(self.alloc, node, link);
        self.bricks.push_reserved(brick);
    }

    /// Takes the last brick away, and gives its node and its link back. `None` exactly where there is none.
    pub fn pop(&mut self) -> Option<(Node<D>, L)>
        ensures bricks { TakesLast self.old.bricks self.new.bricks result }
        ensures room { self.new.room ≡ self.old.room }
    {
        let brick = self.bricks.pop()?;
        Some(brick.into_parts())
    }

    /// Has each brick take a turn over its link and this clock, in order.
    ///
    /// # Errors
    ///
    /// The bricks before took their turns, and the next one was stopped in its turn, or is `Halted`, since its disk failed in an earlier one.
    pub fn take_turns<C: Clock>(&mut self, clock: &mut C) -> Result<(), ServeFault>
        ensures turns { MatchResult result (λ _. TakeTurns D.Disk L.Link C.Clock self.old.bricks self.new.bricks clock.old clock.new)
            (λ fault. StopTurns D.Disk L.Link C.Clock fault self.old.bricks self.new.bricks clock.old clock.new) }
        ensures room { self.new.room ≡ self.old.room }
    {
        take_turns(self.bricks.as_mut_slice(), clock, self.room.as_mut_slice())
    }
}

/// The bricks that a process hosts, and the clock that they share.
#[derive(Drop)]
pub struct TimedBricks<D: Disk, L: Link, C: Clock> {
    /// The bricks.
    pub bricks: HostedBricks<D, L>,
    /// Their clock.
    pub clock: C,
}

impl<D: Disk, L: Link, C: Clock> Bricks for TimedBricks<D, L, C> {
    ghost use Rattle.std.specs.Prelude.{◌≡◌};
    ghost use Rattle.hosting.specs.Faults.{fault_of};
    ghost use Rattle.hosting.specs.Hosted.{TakeTurns, StopTurns, AreSound};
    ghost use Rattle.serving.specs.declared.faults.ServeFault.{ServeFault};

    ghost takes = { λ before after. TakeTurns D.Disk L.Link C.Clock before.bricks.bricks after.bricks.bricks before.clock after.clock };

    ghost stops = { λ before after fault. (met : ServeFault) × (fault ≡ fault_of met)
        × StopTurns D.Disk L.Link C.Clock met before.bricks.bricks after.bricks.bricks before.clock after.clock };

    ghost sound = { λ hosted. AreSound D.Disk L.Link C.Clock hosted.bricks.bricks hosted.clock };

    fn take_turns(&mut self) -> Result<(), HostFault> {
        self.bricks.take_turns(&mut self.clock)?;
        Ok(())
    }
}
