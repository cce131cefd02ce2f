//! The clients that wait for the answers of operations.

ghost use Rattle.std.specs.Prelude.{◌≡◌, Some, None, OnOk, OnErr};
ghost use Rattle.protocol.specs.Nodes.{put};
ghost use Rattle.serving.specs.Clients.{waiting_in};

use fab_base::NoMem;
use std::alloc::Global;
use std::collections::BTreeMap;

/// A client that asked for an operation.
#[derive(Clone, Copy)]
pub struct Client {
    /// The client's own number for the operation, which the answer carries.
    pub id: u64,
    /// The port that it asked from, which the answer goes to.
    pub port: u16,
}

/// The clients that wait, by the numbers of their operations' calls.
#[derive(Drop)]
pub(crate) struct Clients {
    waiting: BTreeMap<u64, Client>,
}

impl Clients {
    /// None waits.
    pub(crate) fn new(alloc: Global) -> Clients
        ensures { waiting_in result ≡ (λ seq. None) }
    {
        Clients {
            waiting: BTreeMap::new(alloc),
        }
    }

    /// A client waits for the answer of a call that none waits for. Where no memory is left, all is as it was.
    pub(crate) fn add(&mut self, seq: u64, client: Client) -> Result<(), NoMem>
        ensures added { OnOk result (waiting_in self.new ≡ put (waiting_in self.old) seq (Some client)) }
        ensures err { OnErr result (waiting_in self.new ≡ waiting_in self.old) }
    {
        self.waiting.insert(seq, client)?;
        Ok(())
    }

    /// The client that waits for the answer of a call, if one does; it waits no more.
    pub(crate) fn take(&mut self, seq: u64) -> Option<Client>
        ensures client { result ≡ waiting_in self.old seq }
        ensures taken { waiting_in self.new ≡ put (waiting_in self.old) seq None }
    {
        self.waiting.remove(&seq)
    }
}
