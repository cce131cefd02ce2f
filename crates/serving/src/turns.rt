//! The turns of a serving brick.

ghost use Rattle.std.specs.Prelude.{◌≡◌, ◌≢◌, ◌⊎◌, ◌≤◌, true, false, IsOk, IfOk, length};
ghost use Rattle.fab_io.specs.Ends.{Kept};
ghost use Rattle.stripe_code.specs.Codes.{coding};
ghost use Rattle.node.specs.Running.{state_of, IsSameBrick, LeavesBrick};
ghost use Rattle.serving.specs.Faults.{KeepsDisk};
ghost use Rattle.serving.specs.Serves.{outside, TakesTurn, IsServed};
ghost use Rattle.serving.specs.Servings.{HasNoClient, begun};
ghost use Rattle.serving.specs.Views.{serving_of, IsServerOf, SendsAll};

use crate::faults::ServeFault;
use crate::incomings::malformed_count;
use crate::looking::{MOST_BYTES, look, read_clock};
use crate::servers::Server;
use fab_disk::Disk;
use fab_io::{Clock, Link};
use node::Node;
use std::alloc::Global;

impl Server {
    /// Takes a turn of [`serve`] as the brick of this node, which it was made for, and answers how many datagrams came in it that are no
    /// message. `room` is room for a datagram, of [`MOST_BYTES`] bytes.
    ///
    /// # Errors
    ///
    /// `Disk`, `Link` and `Clock` only where that thing's count of faults rose; after `Disk` the brick is halted, and takes no further turn.
    /// `NoMemory` where no memory was left. Nothing was done then; or, after `Link` and `NoMemory`, some of the turn's datagrams were not sent,
    /// the last ones.
    pub fn take_turn<D: Disk, L: Link, C: Clock>(
        &mut self,
        node: &mut Node<D>,
        link: &mut L,
        clock: &mut C,
        room: &mut [u8],
    ) -> Result<u64, ServeFault>
        requires room { length room.old ≡ 65535 }
        requires server { IsServerOf self.old node.old }
        requires runs { node.old.brick.halted ≡ false }
        requires fresh { HasNoClient (serving_of self.old node.old) }
        ensures turn { TakesTurn (coding node.old.layout) node.old.me (serving_of self.old node.old) (serving_of self.new node.new)
            (outside (L.waiting link.old) (L.sent link.old) (C.coming clock.old)) (outside (L.waiting link.new) (L.sent link.new) (C.coming clock.new)) result }
        ensures few { IfOk result (λ malformed. malformed ≤ 1) }
        ensures same { IsSameBrick node.old node.new }
        ensures server { IsServerOf self.new node.new }
        ensures fresh { HasNoClient (serving_of self.new node.new) }
        ensures runs { result ≢ Err ServeFault.Disk → node.new.brick.halted ≡ false }
        ensures disk { KeepsDisk D.Disk node.old node.new (result ≡ Err ServeFault.Disk) }
        ensures link { Kept (L.faults link.old) (L.faults link.new) (L.sound link.old) (L.sound link.new) (result ≡ Err ServeFault.Link) }
        ensures clock { Kept (C.faults clock.old) (C.faults clock.new) (C.sound clock.old) (C.sound clock.new) (result ≡ Err ServeFault.Clock) }
    {
        let incoming = look(self.alloc, self.ports, self.me, link, room)?;
        let now = read_clock(clock)?;
        self.handle(node, link, now, &incoming)?;
        Ok(malformed_count(&incoming))
    }
}

/// Serves so many turns as the brick of a node, over a link and a clock, and answers how many datagrams came that are no message.
///
/// A turn looks at the link once, into room for 65,535 bytes, and then reads the clock once. A datagram that came is handled. Where none
/// came, there is a tick if the reading is at least 100 above that of the last tick, 0 at first. The sender of a message is the brick whose
/// port it came from; a message from another port, and a client's answer, are dropped. A client's invocation may come from any port, and is
/// answered there: at once where the brick refuses it, else when its operation ends. Each message that the brick sends goes to the port of
/// its receiver as one datagram. One without a spelling, or for a port past 65,535, would not be sent: a brick that an image of a disk shows,
/// that has no operation open when it is called, and whose proposal and synchronisation, if it has them, are of its layout, has none, whatever
/// comes. What the brick reports of these two is told to nobody.
///
/// # Errors
///
/// `Disk`, `Link` and `Clock` only where that thing's count of faults rose. `Halted` exactly where the brick was halted when it was called.
/// `NoMemory` where no memory was left; before the first turn nothing was done then. Else, after each, the brick went through fewer turns than it
/// was to take, as after `Ok`. Of the turn in which it came nothing was done; or, after `Link` and `NoMemory`, some of its datagrams were not
/// sent, the last ones.
pub fn serve<D: Disk, L: Link, C: Clock>(
    alloc: Global,
    node: &mut Node<D>,
    link: &mut L,
    clock: &mut C,
    turns: u64,
) -> Result<u64, ServeFault>
    ensures served { node.old.brick.halted ≡ false → IsServed (coding node.old.layout) node.old.me (state_of node.old) (state_of node.new)
        (outside (L.waiting link.old) (L.sent link.old) (C.coming clock.old)) (outside (L.waiting link.new) (L.sent link.new) (C.coming clock.new)) turns result }
    // Where an image of a disk shows the brick, no operation of it is open, and its proposal and synchronisation are of its layout, each message
    // can be sent, whatever datagrams come.
    ensures spelled { node.old.brick.halted ≡ false → SendsAll node.old }
    ensures same { IsSameBrick node.old node.new }
    // A brick that is not halted is not, unless its disk failed.
    ensures runs { node.old.brick.halted ≡ false → result ≢ Err ServeFault.Disk → node.new.brick.halted ≡ false }
    // Unless the disk failed, a crash leaves only what shows the brick as it is now.
    ensures durable { D.tells → result ≢ Err ServeFault.Disk → result ≢ Err ServeFault.Halted
        → LeavesBrick node.new.layout node.new.me (state_of node.new) (D.may_leave node.new.brick.disk) }
    ensures halted { node.old.brick.halted ≡ true → (result ≡ Err ServeFault.Halted) × (node.new ≡ node.old) × (link.new ≡ link.old) × (clock.new ≡ clock.old) }
    ensures only_halted { result ≡ Err ServeFault.Halted → node.old.brick.halted ≡ true }
    ensures disk { KeepsDisk D.Disk node.old node.new (result ≡ Err ServeFault.Disk) }
    ensures link { Kept (L.faults link.old) (L.faults link.new) (L.sound link.old) (L.sound link.new) (result ≡ Err ServeFault.Link) }
    ensures clock { Kept (C.faults clock.old) (C.faults clock.new) (C.sound clock.old) (C.sound clock.new) (result ≡ Err ServeFault.Clock) }
    // Over sound things a brick that is not halted reaches its turns, or finds no memory.
    ensures sound { node.old.brick.halted ≡ false → D.sound node.old.brick.disk → L.sound link.old → C.sound clock.old → IsOk result ⊎ (result ≡ Err ServeFault.NoMemory) }
{
    if node.is_halted() {
        return Err(ServeFault::Halted);
    }
    let served = serve_turns(alloc, node, link, clock, turns);
    // The clauses speak of the disk too, so the brick is looked at.
    let _ = node.is_halted();
    served
}

/// The same, at a brick that is not halted.
fn serve_turns<D: Disk, L: Link, C: Clock>(
    alloc: Global,
    node: &mut Node<D>,
    link: &mut L,
    clock: &mut C,
    turns: u64,
) -> Result<u64, ServeFault>
    requires runs { node.old.brick.halted ≡ false }
    ensures served { IsServed (coding node.old.layout) node.old.me (state_of node.old) (state_of node.new)
        (outside (L.waiting link.old) (L.sent link.old) (C.coming clock.old)) (outside (L.waiting link.new) (L.sent link.new) (C.coming clock.new)) turns result }
    ensures spelled { SendsAll node.old }
    ensures same { IsSameBrick node.old node.new }
    ensures runs { result ≢ Err ServeFault.Disk → node.new.brick.halted ≡ false }
    ensures disk { KeepsDisk D.Disk node.old node.new (result ≡ Err ServeFault.Disk) }
    ensures link { Kept (L.faults link.old) (L.faults link.new) (L.sound link.old) (L.sound link.new) (result ≡ Err ServeFault.Link) }
    ensures clock { Kept (C.faults clock.old) (C.faults clock.new) (C.sound clock.old) (C.sound clock.new) (result ≡ Err ServeFault.Clock) }
{
    let server = Server::new(alloc, node);
    let mut room = vec![in alloc; 0u8; MOST_BYTES]?;
    take_turns(server, node, link, clock, room.as_mut_slice(), turns)
}

/// Takes so many turns, with this room for a datagram.
fn take_turns<D: Disk, L: Link, C: Clock>(
    server: Server,
    node: &mut Node<D>,
    link: &mut L,
    clock: &mut C,
    room: &mut [u8],
    turns: u64,
) -> Result<u64, ServeFault>
    requires room { length room.old ≡ 65535 }
    requires server { IsServerOf server node.old }
    requires begins { serving_of server node.old ≡ begun (state_of node.old) }
    requires runs { node.old.brick.halted ≡ false }
    ensures served { IsServed (coding node.old.layout) node.old.me (state_of node.old) (state_of node.new)
        (outside (L.waiting link.old) (L.sent link.old) (C.coming clock.old)) (outside (L.waiting link.new) (L.sent link.new) (C.coming clock.new)) turns result }
    ensures same { IsSameBrick node.old node.new }
    ensures runs { result ≢ Err ServeFault.Disk → node.new.brick.halted ≡ false }
    ensures disk { KeepsDisk D.Disk node.old node.new (result ≡ Err ServeFault.Disk) }
    ensures link { Kept (L.faults link.old) (L.faults link.new) (L.sound link.old) (L.sound link.new) (result ≡ Err ServeFault.Link) }
    ensures clock { Kept (C.faults clock.old) (C.faults clock.new) (C.sound clock.old) (C.sound clock.new) (result ≡ Err ServeFault.Clock) }
{
    let mut server = server;
    let mut malformed: u64 = 0;
    for turn in 0..turns {
        malformed += server.take_turn(node, link, clock, room)?;
    }
    Ok(malformed)
}
