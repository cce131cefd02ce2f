//! Room for one datagram.

ghost use Rattle.std.specs.Prelude.{◌≡◌, ◌≤◌, length, IfOk, IfSome};
ghost use Rattle.fab_io.specs.Datagrams.{Stays, RecvTakes};
ghost use Rattle.fab_io.specs.Ends.{Kept};

use fab_io::{IoFault, Link};
use serving::MOST_BYTES;
use std::alloc::{AllocError, Global};
use std::marker::Model;

/// Room for any datagram, of 65,535 bytes. A clause sees what stands in it.
#[derive(Drop)]
pub struct Room {
    bytes: Vec<u8>,
}

impl Model for Room {
    ghost use Rattle.std.specs.Prelude.{◌≡◌, ℕ, List, length};

    ghost Value = { List ℕ };

    ghost view = { λ r. r.bytes.items };

    ghost invariant = { λ r. length r.bytes.items ≡ 65535 };
}

impl Room {
    /// Room in which nothing came yet.
    ///
    /// # Errors
    ///
    /// No memory was left.
    pub fn new(alloc: Global) -> Result<Room, AllocError> {
        let bytes = vec![in alloc; 0u8; MOST_BYTES]?;
        Ok(Room { bytes })
    }

    /// Looks at a link once. What came stands at the front of the room, in so many bytes.
    pub(crate) fn recv<L: Link>(&mut self, link: &mut L) -> Result<Option<(u16, usize)>, IoFault>
        ensures all { length self.new ≡ 65535 }
        ensures within { IfOk result (λ came. IfSome came (λ c. c.1 ≤ 65535)) }
        ensures takes { RecvTakes (L.waiting link.old) (L.waiting link.new) result self.new }
        ensures sent { Stays (L.sent link.old) (L.sent link.new) }
        ensures kept { Kept (L.faults link.old) (L.faults link.new) (L.sound link.old) (L.sound link.new) (result ≡ Err IoFault.Failed) }
    {
        link.recv(self.bytes.as_mut_slice())
    }

    /// What stands in it.
    pub(crate) fn bytes(&self) -> &[u8]
        ensures { result.now ≡ self.now }
    {
        self.bytes.as_slice()
    }
}
