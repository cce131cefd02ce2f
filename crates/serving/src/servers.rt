//! What a serving brick knows beside its node, and whom it answers.

ghost use Rattle.std.specs.Prelude.{◌≡◌, ◌∷◌, [], ◌++◌, IfErr, OnOk, OnErr, MatchResult, option_to_list};
ghost use Rattle.fab_io.specs.Ends.{Kept};
ghost use Rattle.fab_io.specs.Datagrams.{Stays, Grows};
ghost use Rattle.node.specs.Running.{state_of};
ghost use Rattle.serving.specs.Clients.{waiting_in};
ghost use Rattle.serving.specs.Datagrams.{datagrams_of, GrowsFront};
ghost use Rattle.serving.specs.Faults.{AtLink};
ghost use Rattle.serving.specs.Sending.{addressed, replies};
ghost use Rattle.serving.specs.Servers.{KeepsAllButClients};
ghost use Rattle.serving.specs.Servings.{answer_to, answers_for, begun, still_waiting};
ghost use Rattle.serving.specs.Views.{serving_of, IsServerOf, SendsAll};

use crate::clients::{Client, Clients};
use crate::faults::ServeFault;
use crate::ports::Ports;
use crate::sending::{send, send_all};
use fab_base::{Answer, BrickId};
use fab_disk::Disk;
use fab_io::Link;
use messages::{ClientAnswer, Message};
use node::Node;
use protocol::Answered;
use std::alloc::Global;

/// What a serving brick knows beside its node: its number, the ports of the bricks, the clients that wait for answers, and the moment of its
/// last tick. It is made for one node, and takes the turns of that one alone.
#[derive(Drop)]
pub struct Server {
    pub(crate) alloc: Global,
    pub(crate) ports: Ports,
    pub(crate) me: BrickId,
    pub(crate) clients: Clients,
    /// The moment of the last tick, 0 before the first.
    pub(crate) ticked: u64,
}

impl Server {
    /// The brick of this node begins to serve: no client waits, and no tick was. The server holds no memory yet. A client whose operation
    /// is open already gets no answer.
    pub fn new<D: Disk>(alloc: Global, node: &Node<D>) -> Server
        ensures server { IsServerOf result node.now }
        ensures begins { serving_of result node.now ≡ begun (state_of node.now) }
        // Where an image of a disk shows the brick, no operation of it is open, and its proposal and its synchronisation are of its layout, each
        // message of the turns that follow can be sent.
        ensures spelled { SendsAll node.now }
    {
        Server {
            alloc,
            ports: Ports::of(node.layout()),
            me: node.me(),
            clients: Clients::new(alloc),
            ticked: 0,
        }
    }

    /// The client that waits for an answer, if one does, with the answer; it waits no more.
    pub(crate) fn reply_to(&mut self, answer: Option<Answered>) -> Option<(Client, Answer)>
        ensures reply { replies result ≡ answers_for (waiting_in self.old.clients) (option_to_list answer) }
        ensures clients { waiting_in self.new.clients ≡ still_waiting (waiting_in self.old.clients) (option_to_list answer) }
        ensures same { KeepsAllButClients self.old self.new }
    {
        let Answered { seq, answer } = answer?;
        let client = self.clients.take(seq)?;
        Some((client, answer))
    }

    /// Sends an answer to a client.
    pub(crate) fn send_answer<L: Link>(
        &self,
        link: &mut L,
        client: Client,
        answer: ClientAnswer,
    ) -> Result<(), ServeFault>
        ensures waiting { Stays (L.waiting link.old) (L.waiting link.new) }
        ensures sent { MatchResult result (λ _. Grows (L.sent link.old) (L.sent link.new) (datagrams_of (answer_to client answer ∷ [])))
            (λ _. Stays (L.sent link.old) (L.sent link.new)) }
        ensures only { IfErr result AtLink }
        ensures kept { Kept (L.faults link.old) (L.faults link.new) (L.sound link.old) (L.sound link.new) (result ≡ Err ServeFault.Link) }
    {
        let reply = Message::ClientReply {
            id: client.id,
            answer,
        };
        send(self.alloc, link, u32::from(client.port), &reply)
    }

    /// Sends the messages of a step, and then the answer for a client, if one is answered.
    pub(crate) fn send_step<L: Link>(
        &self,
        link: &mut L,
        messages: &[(BrickId, Message)],
        reply: Option<(Client, Answer)>,
    ) -> Result<(), ServeFault>
        ensures waiting { Stays (L.waiting link.old) (L.waiting link.new) }
        ensures sent { OnOk result (Grows (L.sent link.old) (L.sent link.new) (datagrams_of (addressed self.now.ports messages.now ++ replies reply))) }
        ensures front { OnErr result (GrowsFront (L.sent link.old) (L.sent link.new)
            (datagrams_of (addressed self.now.ports messages.now ++ replies reply))) }
        ensures only { IfErr result AtLink }
        ensures kept { Kept (L.faults link.old) (L.faults link.new) (L.sound link.old) (L.sound link.new) (result ≡ Err ServeFault.Link) }
    {
        send_all(self.alloc, link, self.ports, messages)?;
        match reply {
            Some((client, answer)) => self.send_answer(link, client, ClientAnswer::Ended(answer)),
            None => Ok(()),
        }
    }
}
