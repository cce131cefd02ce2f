// The links of a host over the system, which take turns at waiting.
use fab_io::{IoFault, Link, UdpLink};
use std::cell::Cell;
use std::rc::Rc;

// How many links of a host are open, and how many of them were found empty since a datagram last came or went, or one of
// them waited.
#[derive(Drop)]
pub struct Turns {
    open: Cell<u64>,
    empty: Cell<u64>,
    round: Cell<u64>,
}

impl Turns {
    // No link is open.
    pub fn none() -> Turns {
        Turns {
            open: Cell::new(0),
            empty: Cell::new(0),
            round: Cell::new(1),
        }
    }

    // One more link is open, or one less.
    fn opened(&self) {
        self.open.set(self.open.get().saturating_add(1));
        self.begin();
    }

    fn closed(&self) {
        self.open.set(self.open.get().saturating_sub(1));
        self.begin();
    }

    // A look may wait: at the only link, or where each was just found empty.
    fn may_wait(&self) -> bool {
        self.open.get() <= self.empty.get().max(1)
    }

    // From now on none was found empty.
    fn begin(&self) {
        self.round.set(self.round.get().wrapping_add(1));
        self.empty.set(0);
    }

    // A link was found empty; `last` is the round in which it was so before.
    fn found_empty(&self, last: u64) -> u64 {
        let round = self.round.get();
        if last != round {
            self.empty.set(self.empty.get().saturating_add(1));
        }
        round
    }
}

/// A link of an [`OsHost`](crate::OsHost): a [`UdpLink`] that waits only if it is the only link of its host, or each link of the
/// host was just found empty in a row; else a look doesn't wait. It tells nothing, and is never sound.
pub struct OsLink {
    link: UdpLink,
    turns: Rc<Turns>,
    empty_in: u64,
}

impl Drop for OsLink {
    // Written out, it is proved once: a derived one is proved anew, with that of each part, in each crate above that lets one go.
    fn drop(self) {
        let Self {
            link: _,
            turns: _,
            empty_in: _,
        } = self;
    }
}

impl OsLink {
    // One more link of the host that has these turns.
    pub(crate) fn new(link: UdpLink, turns: Rc<Turns>) -> OsLink {
        turns.opened();
        OsLink {
            link,
            turns,
            empty_in: 0,
        }
    }

    // The link takes part no more.
    pub(crate) fn close(self) {
        self.turns.closed();
    }
}

impl Link for OsLink {
    ghost use Rattle.std.specs.Prelude.{None};

    ghost faults = { λ l. l.link.faults };

    ghost waiting = { λ _. None };

    ghost sent = { λ _. None };

    ghost sound = { λ _. ⊥ };

    fn recv(&mut self, into: &mut [u8]) -> Result<Option<(u16, usize)>, IoFault> {
        let waits = self.turns.may_wait();
        self.link.set_waiting(waits);
        let came = self.link.recv(into)?;
        if waits || came.is_some() {
            self.turns.begin();
        } else {
            self.empty_in = self.turns.found_empty(self.empty_in);
        }
        Ok(came)
    }

    fn send(&mut self, port: u16, from: &[u8]) -> Result<(), IoFault> {
        self.turns.begin();
        self.link.send(port, from)
    }
}
