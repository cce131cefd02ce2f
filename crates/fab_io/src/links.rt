// A link, which sends and receives datagrams, as a program above sees it.
ghost use Rattle.std.specs.Prelude.{◌≡◌, ◌≤◌, List, Option, ℕ, length, IfOk, IfSome};
ghost use Rattle.fab_io.specs.Ends.{Kept};
ghost use Rattle.fab_io.specs.Datagrams.{Stays, RecvTakes, SendAdds};

use fab_base::{Bytes, IoFault};

/// A datagram, with the port that it came from or goes to.
#[derive(Drop)]
pub struct Datagram {
    /// The port at the other end.
    pub port: u16,
    /// What is said.
    pub bytes: Bytes,
}

/// Where datagrams come from and go to, each from or to a port of this machine.
///
/// A link has a count of faults, which never falls and stays at `u64::MAX` once it is there. It may tell the datagrams
/// that wait at it, in the order in which it gives them, and those that it sent, in order. A link that is sound does not fail and stays
/// sound.
pub trait Link {
    ghost use Rattle.fab_io.specs.declared.links.Datagram.{Datagram};

    // The faults so far.
    ghost faults: { Self → ℕ };

    // The datagrams that are still to be received, where the link tells them.
    ghost waiting: { Self → Option (List Datagram) };

    // The datagrams sent so far, where the link tells them.
    ghost sent: { Self → Option (List Datagram) };

    // No call fails from here on.
    ghost sound: { Self → Type 0 };

    /// Looks for a datagram, puts it into the front of the buffer, and answers the port that it came from and how many bytes
    /// came. One that is longer than the buffer is cut to its length, and the rest of it is lost. What stands in the
    /// buffer behind it is not said. `None` says that none was there; over a link that tells, it comes exactly then.
    ///
    /// `Failed` comes only where the count of faults rose in this call. Either fault leaves what waits as it was.
    fn recv(&mut self, into: &mut [u8]) -> Result<Option<(u16, usize)>, IoFault>
        ensures within { IfOk result (λ came. IfSome came (λ c. c.1 ≤ length into.new)) }
        ensures takes { RecvTakes (waiting self.old) (waiting self.new) result into.new }
        ensures sent { Stays (sent self.old) (sent self.new) }
        ensures kept { Kept (faults self.old) (faults self.new) (sound self.old) (sound self.new)
            (result ≡ Err IoFault.Failed) };

    /// Sends these bytes to a port, as one datagram. That it arrives is not said.
    ///
    /// `Failed` comes only where the count of faults rose in this call. Either fault leaves it unsent.
    fn send(&mut self, port: u16, from: &[u8]) -> Result<(), IoFault>
        ensures waiting { Stays (waiting self.old) (waiting self.new) }
        ensures adds { SendAdds (sent self.old) (sent self.new) result (record { port = port; bytes = from.now }) }
        ensures kept { Kept (faults self.old) (faults self.new) (sound self.old) (sound self.new)
            (result ≡ Err IoFault.Failed) };
}
