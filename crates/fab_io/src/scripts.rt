// A link and a clock in memory, which follow a script.
ghost use Rattle.std.specs.Prelude.{◌≡◌, ◌≢◌, ◌↔◌, ◌≤◌, Some, length, IfOk, IfSome, OnOk, OnErr, IsErrOf};
ghost use Rattle.fab_io.specs.Ends.{Kept};
ghost use Rattle.fab_io.specs.Calls.{FailsNext, NoneToFail};
ghost use Rattle.fab_io.specs.Datagrams.{Stays, RecvTakes, SendAdds};
ghost use Rattle.fab_io.specs.Moments.{NowGives};
ghost use Rattle.fab_io.specs.Scripts.{link_of, after_look, after_send, link_after_failing, clock_of, coming_of, after_reading, clock_after_failing};

use crate::calls::Calls;
use crate::clocks::Clock;
use crate::links::{Datagram, Link};
use fab_base::{Bytes, IoFault};
use std::alloc::Global;
use std::marker::Model;

/// A link that gives the datagrams of a list, in order, and keeps what it sent. It fails at the calls that
/// [`fail_at`](MemLink::fail_at) lists and at no other, and is sound once no listed call is still to come. A datagram
/// for which there is no memory is not counted as a call.
pub struct MemLink {
    datagrams: Vec<Datagram>,
    at: usize,
    sent: Vec<Datagram>,
    calls: Calls,
}

impl Drop for MemLink {
    // Written out, it is proved once: a derived one is proved anew, with that of each part, in each crate above that lets one go.
    fn drop(self) {
        let Self {
            datagrams: _,
            at: _,
            sent: _,
            calls: _,
        } = self;
    }
}

impl Model for MemLink {
    ghost use Rattle.std.specs.Prelude.{◌≤◌, length, drop};
    ghost use Rattle.fab_io.specs.Scripts.{LinkInMemory};

    ghost Value = { LinkInMemory };

    ghost view = { λ l. record { waiting = drop l.at l.datagrams.items; sent = l.sent.items; calls = l.calls } };

    ghost invariant = { λ l. l.at ≤ length l.datagrams.items };
}

impl MemLink {
    /// A link at which these datagrams wait.
    pub fn new(datagrams: Vec<Datagram>) -> MemLink
        ensures { result ≡ link_of datagrams.items }
    {
        let alloc: Global = *datagrams.allocator();
        MemLink {
            datagrams,
            at: 0,
            sent: Vec::new(alloc),
            calls: Calls::new(alloc),
        }
    }

    /// The datagrams sent so far.
    pub fn sent(&self) -> &[Datagram]
        ensures { result.now ≡ self.now.sent }
    {
        &self.sent
    }

    /// The calls that are to fail, numbered from 1 over the link's life, in the place of those listed before.
    pub fn fail_at(&mut self, calls: Vec<u64>)
        ensures { self.new ≡ record self.old { calls = record self.old.calls { failing = calls.items } } }
    {
        self.calls.fail_at(calls);
    }
}

impl Link for MemLink {
    ghost use Rattle.std.specs.Prelude.{Some};
    ghost use Rattle.fab_io.specs.Calls.{NoneToFail};

    ghost faults = { λ l. l.calls.faults };

    ghost waiting = { λ l. Some l.waiting };

    ghost sent = { λ l. Some l.sent };

    ghost sound = { λ l. NoneToFail l.calls };

    fn recv(&mut self, into: &mut [u8]) -> Result<Option<(u16, usize)>, IoFault>
        ensures within { IfOk result (λ came. IfSome came (λ c. c.1 ≤ length into.new)) }
        ensures takes { RecvTakes (Some self.old.waiting) (Some self.new.waiting) result into.new }
        ensures sent { Stays (Some self.old.sent) (Some self.new.sent) }
        ensures kept { Kept self.old.calls.faults self.new.calls.faults
            (NoneToFail self.old.calls) (NoneToFail self.new.calls) (result ≡ Err IoFault.Failed) }

        // A look fails exactly where it is listed.
        ensures fails { (result ≡ Err IoFault.Failed) ↔ FailsNext self.old.calls }
        ensures memory { result ≢ Err IoFault.NoMemory }

        // What the link is afterwards.
        ensures ok { OnOk result (self.new ≡ after_look self.old) }
        ensures err { OnErr result (self.new ≡ link_after_failing self.old) }
    {
        self.calls.count()?;
        let Some(datagram) = self.datagrams.get(self.at) else {
            return Ok(None);
        };
        let bytes = datagram.bytes.as_slice();
        let n = into.len().min(bytes.len());
        into[..n].copy_from_slice(&bytes[..n]);
        self.at += 1;
        Ok(Some((datagram.port, n)))
    }

    fn send(&mut self, port: u16, from: &[u8]) -> Result<(), IoFault>
        ensures waiting { Stays (Some self.old.waiting) (Some self.new.waiting) }
        ensures adds { SendAdds (Some self.old.sent) (Some self.new.sent) result (record { port = port; bytes = from.now }) }
        ensures kept { Kept self.old.calls.faults self.new.calls.faults
            (NoneToFail self.old.calls) (NoneToFail self.new.calls) (result ≡ Err IoFault.Failed) }

        // It fails only where it is listed, and where it is listed it does not succeed.
        ensures fails { IsErrOf result IoFault.Failed → FailsNext self.old.calls }
        ensures succeeds { OnOk result (¬ FailsNext self.old.calls) }

        // What the link is afterwards.
        ensures ok { OnOk result (self.new ≡ after_send self.old (record { port = port; bytes = from.now })) }
        ensures failed { IsErrOf result IoFault.Failed → self.new ≡ link_after_failing self.old }
        ensures refused { IsErrOf result IoFault.NoMemory → self.new ≡ self.old }
    {
        let alloc: Global = *self.sent.allocator();
        let bytes = Bytes::from_vec(Vec::from_slice(alloc, from)?);
        self.sent.reserve(1)?;
        self.calls.count()?;
        self.sent.push(Datagram { port, bytes }).unwrap();
        Ok(())
    }
}

/// A clock that gives the moments of a list, in order, and then its last again; 0 where the list is empty. It fails at
/// the calls that [`fail_at`](MemClock::fail_at) lists and at no other, and is sound once no listed call is still to come.
pub struct MemClock {
    moments: Vec<u64>,
    at: usize,
    calls: Calls,
}

impl Drop for MemClock {
    // Written out, it is proved once: a derived one is proved anew, with that of each part, in each crate above that lets one go.
    fn drop(self) {
        let Self {
            moments: _,
            at: _,
            calls: _,
        } = self;
    }
}

impl Model for MemClock {
    ghost use Rattle.std.specs.Prelude.{◌≤◌, length};
    ghost use Rattle.fab_io.specs.Scripts.{ClockInMemory, last_of};

    ghost Value = { ClockInMemory };

    ghost view = { λ c. record { moments = c.moments.items; at = c.at; calls = c.calls } };

    ghost invariant = { λ c. c.at ≤ last_of (length c.moments.items) };
}

impl MemClock {
    /// A clock of these moments.
    pub fn new(moments: Vec<u64>) -> MemClock
        ensures { result ≡ clock_of moments.items }
    {
        let alloc: Global = *moments.allocator();
        MemClock {
            moments,
            at: 0,
            calls: Calls::new(alloc),
        }
    }

    /// The calls that are to fail, numbered from 1 over the clock's life, in the place of those listed before.
    pub fn fail_at(&mut self, calls: Vec<u64>)
        ensures { self.new ≡ record self.old { calls = record self.old.calls { failing = calls.items } } }
    {
        self.calls.fail_at(calls);
    }
}

impl Clock for MemClock {
    ghost use Rattle.std.specs.Prelude.{Some};
    ghost use Rattle.fab_io.specs.Calls.{NoneToFail};
    ghost use Rattle.fab_io.specs.Scripts.{coming_of};

    ghost faults = { λ c. c.calls.faults };

    ghost coming = { λ c. Some (coming_of c) };

    ghost sound = { λ c. NoneToFail c.calls };

    fn now(&mut self) -> Result<u64, IoFault>
        ensures gives { NowGives (Some (coming_of self.old)) (Some (coming_of self.new)) result }
        ensures kept { Kept self.old.calls.faults self.new.calls.faults
            (NoneToFail self.old.calls) (NoneToFail self.new.calls) (result ≡ Err IoFault.Failed) }

        // A look fails exactly where it is listed.
        ensures fails { (result ≡ Err IoFault.Failed) ↔ FailsNext self.old.calls }
        ensures memory { result ≢ Err IoFault.NoMemory }

        // What the clock is afterwards.
        ensures ok { OnOk result (self.new ≡ after_reading self.old) }
        ensures err { OnErr result (self.new ≡ clock_after_failing self.old) }
    {
        self.calls.count()?;
        let last = self.moments.len().saturating_sub(1);
        let moment = match self.moments.get(self.at) {
            Some(moment) => *moment,
            None => 0,
        };
        self.at = last.min(self.at.saturating_add(1));
        Ok(moment)
    }
}
