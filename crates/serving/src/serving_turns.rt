//! What a serving brick does with what came.

ghost use Rattle.std.specs.Prelude.{◌≡◌, ◌≢◌, ◌^◌, ◌<◌, false, Some, None, IfOk, IfErr, OnOk, OnErr};
ghost use Rattle.fab_io.specs.Ends.{Kept};
ghost use Rattle.fab_io.specs.Datagrams.{Stays};
ghost use Rattle.protocol.specs.Nodes.{put, refusal_of, invoked, received};
ghost use Rattle.stripe_code.specs.Codes.{coding};
ghost use Rattle.node.specs.Running.{state_of, IsSameBrick};
ghost use Rattle.node.specs.States.{BeginsAs};
ghost use Rattle.serving.specs.Clients.{waiting_in};
ghost use Rattle.serving.specs.Faults.{KeepsDisk};
ghost use Rattle.serving.specs.Ports.{ports_of};
ghost use Rattle.serving.specs.Servings.{HasNoClient, served, waited, asked_by, stepped};
ghost use Rattle.serving.specs.Servers.{KeepsAllButClients};
ghost use Rattle.serving.specs.Views.{serving_of, IsServerOf};
ghost use Rattle.serving.specs.Serves.{Does};

use crate::clients::Client;
use crate::faults::ServeFault;
use crate::incomings::Incoming;
use crate::sending::send_all;
use crate::servers::Server;
use fab_base::{Ask, Refusal};
use fab_disk::Disk;
use fab_io::Link;
use messages::{ClientAnswer, Packet};
use node::{Begun, Node, NodeFault};

/// How long it is from a tick to the next, in milliseconds.
const TICK_TIME: u64 = 100;

impl Server {
    /// Does what the machine says of what came, at this moment, and sends the datagrams of that.
    #[tactic(auto, unfolding(crate::specs::Servings::served))]
    pub(crate) fn handle<D: Disk, L: Link>(
        &mut self,
        node: &mut Node<D>,
        link: &mut L,
        now: u64,
        incoming: &Incoming,
    ) -> Result<(), ServeFault>
        requires server { IsServerOf self.old node.old }
        requires runs { node.old.brick.halted ≡ false }
        requires fresh { HasNoClient (serving_of self.old node.old) }
        ensures does { Does (serving_of self.old node.old) (serving_of self.new node.new) (L.sent link.old) (L.sent link.new)
            (served (coding node.old.layout) node.old.me (serving_of self.old node.old) incoming.now now) result }
        ensures same { IsSameBrick node.old node.new }
        ensures server { IsServerOf self.new node.new }
        ensures runs { result ≢ Err ServeFault.Disk → node.new.brick.halted ≡ false }
        ensures waiting { Stays (L.waiting link.old) (L.waiting link.new) }
        ensures disk { KeepsDisk D.Disk node.old node.new (result ≡ Err ServeFault.Disk) }
        ensures link { Kept (L.faults link.old) (L.faults link.new) (L.sound link.old) (L.sound link.new) (result ≡ Err ServeFault.Link) }
    {
        match incoming {
            Incoming::Nothing => self.wait(node, link, now),
            Incoming::Malformed | Incoming::Dropped => Ok(()),
            Incoming::Handed(packet) => self.hand_over(node, link, now, packet),
            Incoming::Asked(client, ask) => self.invoke(node, link, now, *client, ask),
        }
    }

    /// Nothing came: there is a tick once it is time for one.
    fn wait<D: Disk, L: Link>(
        &mut self,
        node: &Node<D>,
        link: &mut L,
        now: u64,
    ) -> Result<(), ServeFault>
        requires server { IsServerOf self.old node.now }
        requires runs { node.now.brick.halted ≡ false }
        ensures does { Does (serving_of self.old node.now) (serving_of self.new node.now) (L.sent link.old) (L.sent link.new)
            (waited (coding node.now.layout) node.now.me (serving_of self.old node.now) now) result }
        ensures server { IsServerOf self.new node.now }
        ensures not_disk { result ≢ Err ServeFault.Disk }
        ensures waiting { Stays (L.waiting link.old) (L.waiting link.new) }
        ensures link { Kept (L.faults link.old) (L.faults link.new) (L.sound link.old) (L.sound link.new) (result ≡ Err ServeFault.Link) }
    {
        if now < self.ticked || now - self.ticked < TICK_TIME {
            return Ok(());
        }
        match node.on_tick() {
            Ok(messages) => {
                self.ticked = now;
                send_all(self.alloc, link, self.ports, messages.as_slice())
            }
            Err(NodeFault::NoMemory) => Err(ServeFault::NoMemory),
            Err(NodeFault::Halted | NodeFault::Disk | NodeFault::Refused(_)) => unreachable!(),
        }
    }

    /// Hands a message over, and sends what that makes the brick send.
    fn hand_over<D: Disk, L: Link>(
        &mut self,
        node: &mut Node<D>,
        link: &mut L,
        now: u64,
        packet: &Packet,
    ) -> Result<(), ServeFault>
        requires server { IsServerOf self.old node.old }
        requires runs { node.old.brick.halted ≡ false }
        ensures does { Does (serving_of self.old node.old) (serving_of self.new node.new) (L.sent link.old) (L.sent link.new)
            (stepped (ports_of node.old.layout) (serving_of self.old node.old)
            (received (coding node.old.layout) node.old.me now (state_of node.old) packet.now)) result }
        ensures same { IsSameBrick node.old node.new }
        ensures server { IsServerOf self.new node.new }
        ensures runs { result ≢ Err ServeFault.Disk → node.new.brick.halted ≡ false }
        ensures waiting { Stays (L.waiting link.old) (L.waiting link.new) }
        ensures disk { KeepsDisk D.Disk node.old node.new (result ≡ Err ServeFault.Disk) }
        ensures link { Kept (L.faults link.old) (L.faults link.new) (L.sound link.old) (L.sound link.new) (result ≡ Err ServeFault.Link) }
    {
        match node.on_message(now, packet) {
            Ok(outs) => {
                let (messages, _, answer, _) = outs.into_parts();
                let reply = self.reply_to(answer);
                self.send_step(link, messages.as_slice(), reply)
            }
            Err(NodeFault::Disk) => Err(ServeFault::Disk),
            Err(NodeFault::NoMemory) => Err(ServeFault::NoMemory),
            Err(NodeFault::Halted | NodeFault::Refused(_)) => unreachable!(),
        }
    }

    /// A client asks for an operation: it begins, or the refusal is answered at once.
    fn invoke<D: Disk, L: Link>(
        &mut self,
        node: &mut Node<D>,
        link: &mut L,
        now: u64,
        client: Client,
        ask: &Ask,
    ) -> Result<(), ServeFault>
        requires server { IsServerOf self.old node.old }
        requires runs { node.old.brick.halted ≡ false }
        requires fresh { HasNoClient (serving_of self.old node.old) }
        ensures does { Does (serving_of self.old node.old) (serving_of self.new node.new) (L.sent link.old) (L.sent link.new)
            (asked_by (ports_of node.old.layout) (serving_of self.old node.old) client
            (invoked (coding node.old.layout) node.old.me now (state_of node.old) ask.now) (refusal_of node.old.layout (state_of node.old) ask.now)) result }
        ensures same { IsSameBrick node.old node.new }
        ensures server { IsServerOf self.new node.new }
        ensures brick { node.new.brick ≡ node.old.brick }
        ensures not_disk { result ≢ Err ServeFault.Disk }
        ensures waiting { Stays (L.waiting link.old) (L.waiting link.new) }
        ensures link { Kept (L.faults link.old) (L.faults link.new) (L.sound link.old) (L.sound link.new) (result ≡ Err ServeFault.Link) }
    {
        match self.begin(node, now, client, ask) {
            Ok(begun) => send_all(self.alloc, link, self.ports, begun.messages.as_slice()),
            Err(NodeFault::Refused(reason)) => {
                self.send_answer(link, client, ClientAnswer::Refused(reason))
            }
            Err(NodeFault::NoMemory) => Err(ServeFault::NoMemory),
            Err(NodeFault::Halted | NodeFault::Disk) => unreachable!(),
        }
    }

    /// Begins an operation that a client asks for, and has it wait for the answer. The client's room is made first: once the operation
    /// has begun nothing can fail.
    fn begin<D: Disk>(
        &mut self,
        node: &mut Node<D>,
        now: u64,
        client: Client,
        ask: &Ask,
    ) -> Result<Begun, NodeFault>
        requires fresh { HasNoClient (serving_of self.old node.old) }
        requires runs { node.old.brick.halted ≡ false }
        ensures begun { IfOk result (BeginsAs node.old.me (state_of node.new) (invoked (coding node.old.layout) node.old.me now (state_of node.old) ask.now)) }
        ensures begins { OnOk result (refusal_of node.old.layout (state_of node.old) ask.now ≡ None) }
        ensures waits { OnOk result (waiting_in self.new.clients ≡ put (waiting_in self.old.clients) (state_of node.new).seq (Some client)) }
        ensures refused { IfErr result (λ fault. (reason : Refusal) → fault ≡ NodeFault.Refused reason → refusal_of node.old.layout (state_of node.old) ask.now ≡ Some reason) }
        ensures err { OnErr result ((waiting_in self.new.clients ≡ waiting_in self.old.clients) × (state_of node.new ≡ state_of node.old)) }
        ensures keeps { KeepsAllButClients self.old self.new }
        ensures same { IsSameBrick node.old node.new }
        ensures brick { node.new.brick ≡ node.old.brick }
        ensures not_halted { result ≢ Err NodeFault.Halted }
        ensures not_disk { result ≢ Err NodeFault.Disk }
    {
        let Some(seq) = node.next_seq() else {
            return match node.invoke(now, ask) {
                Ok(begun) => {
                    // Its number would be past all numbers.
                    let _ = number_of(&begun);
                    unreachable!()
                }
                Err(fault) => Err(fault),
            };
        };
        self.clients.add(seq, client)?;
        match node.invoke(now, ask) {
            Ok(begun) => Ok(begun),
            Err(fault) => {
                self.clients.take(seq);
                Err(fault)
            }
        }
    }
}

/// The number of a new operation's call.
fn number_of(begun: &Begun) -> u64
    ensures value { result ≡ begun.now.seq }
    ensures fits { result < 2 ^ 64 }
{
    begun.seq
}
