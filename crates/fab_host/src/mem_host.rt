// A host in memory, whose links and clock follow scripts.
ghost use Rattle.std.specs.Prelude.{◌≡◌, Some, true, IfOk, OnOk, OnErr, MatchOption};
ghost use Rattle.fab_disk.specs.MemDisk.{content_of, may_be_left, IsSound};
ghost use Rattle.fab_host.specs.Asking.{Asks};
ghost use Rattle.fab_host.specs.Opening.{Lends, OpeningKept, IsEmptyDisk};
ghost use Rattle.fab_host.specs.Held.{lent, here, IsMissing};
ghost use Rattle.fab_host.specs.Holdings.{with_source, with_disk, with_link, with_session, IsFree};
ghost use Rattle.fab_host.specs.InMemory.{seen_of, host_of, IsSoundHost};

use crate::asking::{ask, name_of};
use crate::hosts::{Asked, Connection, Host};
use crate::slots::{
    Slot, add_named, add_ported, find_name, look_named, look_ported, push_named, put_named,
    put_ported, take_named, take_ported,
};
use fab_base::Bytes;
use fab_disk::MemDisk;
use fab_io::{Calls, IoFault, MemClock, MemLink, MemSink, MemSource};
use std::alloc::Global;

/// A host that holds sources, disks, links and sessions in memory, under the names and ports that it was given them by, and a clock. What was
/// opened and given back can be opened again. A source named `-` is the standard input.
///
/// It fails where a name is missing, or exists where it is to be made, at the calls that [`fail_at`](MemHost::fail_at) lists, and at
/// no other. It is sound once no listed call is still to come, and all that it holds is sound. A call that finds no
/// memory is not counted.
pub struct MemHost {
    sources: Vec<Slot<Bytes, MemSource>>,
    disks: Vec<Slot<Bytes, MemDisk>>,
    links: Vec<Slot<u16, MemLink>>,
    sessions: Vec<Slot<u16, Connection<MemSource, MemSink>>>,
    clock: Option<MemClock>,
    asked: Vec<Asked>,
    calls: Calls,
}

impl Drop for MemHost {
    // Written out, it is proved once: a derived one is proved anew, with that of each part, in each crate above that lets one go.
    fn drop(self) {
        let Self {
            sources: _,
            disks: _,
            links: _,
            sessions: _,
            clock: _,
            asked: _,
            calls: _,
        } = self;
    }
}

impl MemHost {
    /// A host that holds this clock and nothing else.
    pub fn new(alloc: Global, clock: MemClock) -> MemHost
        ensures { seen_of result ≡ host_of clock }
    {
        MemHost {
            sources: Vec::new(alloc),
            disks: Vec::new(alloc),
            links: Vec::new(alloc),
            sessions: Vec::new(alloc),
            clock: Some(clock),
            asked: Vec::new(alloc),
            calls: Calls::new(alloc),
        }
    }

    /// Puts a source under this name, in the place of one that was there.
    ///
    /// # Errors
    /// `NoMemory`, and nothing changed.
    pub fn add_source(&mut self, name: &str, source: MemSource) -> Result<(), IoFault>
        ensures ok { OnOk result (seen_of self.new ≡ record (seen_of self.old) { held = with_source (seen_of self.old).held name.now (here source) }) }
        ensures err { OnErr result (seen_of self.new ≡ seen_of self.old) }
    {
        add_named(&mut self.sources, name, source)
    }

    /// Puts a disk under this name, in the place of one that was there.
    ///
    /// # Errors
    /// `NoMemory`, and nothing changed.
    pub fn add_disk(&mut self, name: &str, disk: MemDisk) -> Result<(), IoFault>
        ensures ok { OnOk result (seen_of self.new ≡ record (seen_of self.old) { held = with_disk (seen_of self.old).held name.now (here disk) }) }
        ensures err { OnErr result (seen_of self.new ≡ seen_of self.old) }
    {
        add_named(&mut self.disks, name, disk)
    }

    /// Puts a link at this port, in the place of one that was there.
    ///
    /// # Errors
    /// `NoMemory`, and nothing changed.
    pub fn add_link(&mut self, port: u16, link: MemLink) -> Result<(), IoFault>
        ensures ok { OnOk result (seen_of self.new ≡ record (seen_of self.old) { held = with_link (seen_of self.old).held port (here link) }) }
        ensures err { OnErr result (seen_of self.new ≡ seen_of self.old) }
    {
        add_ported(&mut self.links, port, link)
    }

    /// Puts a session at this port, in the place of one that was there.
    ///
    /// # Errors
    /// `NoMemory`, and nothing changed.
    pub fn add_session(
        &mut self,
        port: u16,
        session: Connection<MemSource, MemSink>,
    ) -> Result<(), IoFault>
        ensures ok { OnOk result (seen_of self.new ≡ record (seen_of self.old) { held = with_session (seen_of self.old).held port (here session) }) }
        ensures err { OnErr result (seen_of self.new ≡ seen_of self.old) }
    {
        add_ported(&mut self.sessions, port, session)
    }

    /// The calls that are to fail, numbered from 1 over the host's life, in the place of those listed before. Those that open are
    /// numbered together.
    pub fn fail_at(&mut self, calls: Vec<u64>)
        ensures { seen_of self.new ≡ record (seen_of self.old) { calls = record (seen_of self.old).calls { failing = calls.items } } }
    {
        self.calls.fail_at(calls);
    }

    /// The calls that open which were asked so far.
    pub fn asked(&self) -> &[Asked]
        ensures { result.now ≡ (seen_of self.now).asked }
    {
        &self.asked
    }

    /// The disk of this name, where it is not lent.
    pub fn disk_named(&self, name: &str) -> Option<&MemDisk>
        ensures { MatchOption result (IsMissing ((seen_of self.now).held.disks name.now)) (λ disk. (seen_of self.now).held.disks name.now ≡ here disk.now) }
    {
        look_named(&self.disks, name)
    }

    /// The link at this port, where it is not lent.
    pub fn link_at(&self, port: u16) -> Option<&MemLink>
        ensures { MatchOption result (IsMissing ((seen_of self.now).held.links port)) (λ link. (seen_of self.now).held.links port ≡ here link.now) }
    {
        look_ported(&self.links, port)
    }

    /// The session at this port, where it is not lent.
    pub fn session_at(&self, port: u16) -> Option<&Connection<MemSource, MemSink>>
        ensures { MatchOption result (IsMissing ((seen_of self.now).held.sessions port)) (λ session. (seen_of self.now).held.sessions port ≡ here session.now) }
    {
        look_ported(&self.sessions, port)
    }

    // Makes an empty disk, where no source and no disk has the name.
    fn make_disk(&mut self, name: &str) -> Result<MemDisk, IoFault>
        ensures asked { Asks (seen_of self.old).asked (seen_of self.new).asked (Asked.Disk name.now true) result }
        ensures makes { Lends (Some (seen_of self.old).held) (Some (seen_of self.new).held) (λ h disk. IsFree h name.now)
            (λ h. with_disk h name.now lent) result }
        ensures empty { IfOk result (λ disk. IsEmptyDisk (content_of disk) (may_be_left disk)) }
        ensures gives { IfOk result IsSound }
        ensures kept { OpeningKept (seen_of self.old).calls.faults (seen_of self.new).calls.faults
            (IsSoundHost (seen_of self.old)) (IsSoundHost (seen_of self.new)) (result ≡ Err IoFault.Failed) (¬ (IsFree (seen_of self.old).held name.now)) }
    {
        let alloc: Global = *self.asked.allocator();
        let key = name_of(alloc, name)?;
        self.disks.reserve(1)?;
        let name_asked = name_of(alloc, name)?;
        let call = Asked::Disk {
            name: name_asked,
            fresh: true,
        };
        ask(&mut self.asked, call)?;
        self.calls.count()?;
        if find_name(&self.sources, name).is_some() || find_name(&self.disks, name).is_some() {
            return Err(self.calls.refuse());
        }
        push_named(&mut self.disks, key, None);
        Ok(MemDisk::new(alloc, Vec::new(alloc)))
    }
}

impl Host for MemHost {
    ghost use Rattle.std.specs.Prelude.{Some};
    ghost use Rattle.fab_host.specs.InMemory.{seen_of, IsSoundHost};

    type Source = MemSource;

    type Disk = MemDisk;

    type Link = MemLink;

    type Input = MemSource;

    type Output = MemSink;

    type Clock = MemClock;

    ghost faults = { λ h. h.calls.faults };

    ghost asked = { λ h. (seen_of h).asked };

    ghost holds = { λ h. Some (seen_of h).held };

    ghost sound = { λ h. IsSoundHost (seen_of h) };

    fn source(&mut self, name: &str) -> Result<MemSource, IoFault> {
        let alloc: Global = *self.asked.allocator();
        ask(&mut self.asked, Asked::Source(name_of(alloc, name)?))?;
        self.calls.count()?;
        match take_named(&mut self.sources, name) {
            Some(source) => Ok(source),
            None => Err(self.calls.refuse()),
        }
    }

    fn disk(&mut self, name: &str, fresh: bool) -> Result<MemDisk, IoFault> {
        if fresh {
            return self.make_disk(name);
        }
        let alloc: Global = *self.asked.allocator();
        let name_asked = name_of(alloc, name)?;
        let call = Asked::Disk {
            name: name_asked,
            fresh,
        };
        ask(&mut self.asked, call)?;
        self.calls.count()?;
        match take_named(&mut self.disks, name) {
            Some(disk) => Ok(disk),
            None => Err(self.calls.refuse()),
        }
    }

    fn link(&mut self, port: u16) -> Result<MemLink, IoFault> {
        ask(&mut self.asked, Asked::Link(port))?;
        self.calls.count()?;
        match take_ported(&mut self.links, port) {
            Some(link) => Ok(link),
            None => Err(self.calls.refuse()),
        }
    }

    fn session(&mut self, port: u16) -> Result<Connection<MemSource, MemSink>, IoFault> {
        ask(&mut self.asked, Asked::Session(port))?;
        self.calls.count()?;
        match take_ported(&mut self.sessions, port) {
            Some(session) => Ok(session),
            None => Err(self.calls.refuse()),
        }
    }

    fn clock(&mut self) -> Result<MemClock, IoFault> {
        ask(&mut self.asked, Asked::Clock)?;
        self.calls.count()?;
        match self.clock.take() {
            Some(clock) => Ok(clock),
            None => Err(self.calls.refuse()),
        }
    }

    fn keep_source(&mut self, name: &str, source: MemSource) {
        put_named(&mut self.sources, name, source);
    }

    fn keep_disk(&mut self, name: &str, disk: MemDisk) {
        put_named(&mut self.disks, name, disk);
    }

    fn keep_link(&mut self, port: u16, link: MemLink) {
        put_ported(&mut self.links, port, link);
    }

    fn keep_session(&mut self, port: u16, source: MemSource, sink: MemSink) {
        put_ported(&mut self.sessions, port, Connection { source, sink });
    }

    fn keep_clock(&mut self, clock: MemClock) {
        self.clock.replace(clock);
    }
}
