// A host, which opens what a program uses, as the program sees it.
ghost use Rattle.std.specs.Prelude.{◌≡◌, ◌≤◌, ℕ, List, Option, true, false, IfOk};
ghost use Rattle.fab_host.specs.Asking.{Asks};
ghost use Rattle.fab_host.specs.Held.{lent, here, IsKnown, IsMissing};
ghost use Rattle.fab_host.specs.Holdings.{with_source, with_disk, with_link, with_session, with_clock, IsFree};
ghost use Rattle.fab_host.specs.Opening.{Lends, Regains, WhereTold, OpeningKept, IsEmptyDisk};

use fab_base::Bytes;
use fab_disk::Disk;
use fab_io::{Clock, IoFault, Link, Sink, Source};

/// A call that was asked of a host to open something.
#[derive(Drop)]
pub enum Asked {
    /// The source of this name.
    Source(Bytes),
    /// The disk of this name, and whether it was to be made.
    Disk {
        /// Its name.
        name: Bytes,
        /// Whether it was to be made.
        fresh: bool,
    },
    /// The link at this port.
    Link(u16),
    /// The session at this port.
    Session(u16),
    /// The clock.
    Clock,
}

/// A session with one client: what the client sends, and what is sent to it.
#[derive(Drop)]
pub struct Connection<I: Source + Drop, O: Sink + Drop> {
    /// Where the client's bytes come from.
    pub source: I,
    /// Where the bytes to the client go.
    pub sink: O,
}

/// What opens the sources, disks, links, sessions and clocks of a program, and is given them back before the program ends.
///
/// A host has a count of faults, which never falls and stays at `u64::MAX` once it is there. It tells the calls that were
/// asked of it, in order; giving back is no such call. It may tell what it holds. A host that is sound fails only where a name is
/// missing, or exists where it is to be made; what it opens is sound, and it stays sound where what it is given
/// back is.
///
/// Whether a host tells what it holds never changes. If it does, what it has lent can't be opened again until it is given back.
pub trait Host {
    ghost use Rattle.fab_host.specs.declared.hosts.Asked.{Asked};
    ghost use Rattle.fab_host.specs.declared.hosts.Connection.{Connection};
    ghost use Rattle.fab_host.specs.Holdings.{Holdings};

    /// Its sources.
    type Source: Source + Drop;

    /// Its disks.
    type Disk: Disk + Drop;

    /// Its links.
    type Link: Link + Drop;

    /// The sources of its sessions.
    type Input: Source + Drop;

    /// The sinks of its sessions.
    type Output: Sink + Drop;

    /// Its clocks.
    type Clock: Clock + Drop;

    // The faults so far.
    ghost faults: { Self → ℕ };

    // The calls asked so far.
    ghost asked: { Self → List Asked };

    // What it holds, where it tells that.
    ghost holds: { Self → Option (Holdings Self.Source Self.Disk Self.Link (Connection Self.Input Self.Output) Self.Clock) };

    // No call fails from here on, but for a wrong name.
    ghost sound: { Self → Type 0 };

    /// Opens the source of this name; `-` names the standard input.
    ///
    /// `Failed` comes only where the count of faults rose in this call; over a sound host, where there is no such source to
    /// be opened. `NoMemory` changes nothing.
    fn source(&mut self, name: &str) -> Result<Self::Source, IoFault>
        ensures asked { Asks (asked self.old) (asked self.new) (Asked.Source name.now) result }
        ensures lends { Lends (holds self.old) (holds self.new) (λ h source. h.sources name.now ≡ here source)
            (λ h. with_source h name.now lent) result }
        ensures gives { sound self.old → IfOk result Self.Source.sound }
        ensures kept { OpeningKept (faults self.old) (faults self.new) (sound self.old) (sound self.new)
            (result ≡ Err IoFault.Failed) (WhereTold (holds self.old) (λ h. IsMissing (h.sources name.now))) };

    /// Opens the disk of this name, or makes an empty one where `fresh` is set.
    ///
    /// `Failed` comes only where the count of faults rose in this call; over a sound host, where there is no such disk to
    /// be opened, or a source or a disk has the name of one to be made. `NoMemory` changes nothing.
    fn disk(&mut self, name: &str, fresh: bool) -> Result<Self::Disk, IoFault>
        ensures asked { Asks (asked self.old) (asked self.new) (Asked.Disk name.now fresh) result }
        ensures lends { fresh ≡ false → Lends (holds self.old) (holds self.new) (λ h disk. h.disks name.now ≡ here disk)
            (λ h. with_disk h name.now lent) result }
        ensures makes { fresh ≡ true → Lends (holds self.old) (holds self.new) (λ h disk. IsFree h name.now)
            (λ h. with_disk h name.now lent) result }
        ensures empty { fresh ≡ true → Self.Disk.tells → IfOk result (λ disk. IsEmptyDisk (Self.Disk.seen disk) (Self.Disk.may_leave disk)) }
        ensures gives { sound self.old → IfOk result Self.Disk.sound }
        ensures kept { OpeningKept (faults self.old) (faults self.new) (sound self.old) (sound self.new)
            (result ≡ Err IoFault.Failed) (WhereTold (holds self.old) (λ h. (fresh ≡ false → IsMissing (h.disks name.now))
            × (fresh ≡ true → ¬ (IsFree h name.now)))) };

    /// Opens the link at this port, or at any free one where it is 0.
    ///
    /// `Failed` comes only where the count of faults rose in this call; over a sound host, where there is no such link to
    /// be opened. `NoMemory` changes nothing.
    fn link(&mut self, port: u16) -> Result<Self::Link, IoFault>
        ensures asked { Asks (asked self.old) (asked self.new) (Asked.Link port) result }
        ensures lends { Lends (holds self.old) (holds self.new) (λ h link. h.links port ≡ here link)
            (λ h. with_link h port lent) result }
        ensures gives { sound self.old → IfOk result Self.Link.sound }
        ensures kept { OpeningKept (faults self.old) (faults self.new) (sound self.old) (sound self.new)
            (result ≡ Err IoFault.Failed) (WhereTold (holds self.old) (λ h. IsMissing (h.links port))) };

    /// Opens a session at this port: one client that has come there.
    ///
    /// `Failed` comes only where the count of faults rose in this call; over a sound host, where there is no such session to
    /// be opened. `NoMemory` changes nothing.
    fn session(&mut self, port: u16) -> Result<Connection<Self::Input, Self::Output>, IoFault>
        ensures asked { Asks (asked self.old) (asked self.new) (Asked.Session port) result }
        ensures lends { Lends (holds self.old) (holds self.new) (λ h session. h.sessions port ≡ here session)
            (λ h. with_session h port lent) result }
        ensures gives { sound self.old → IfOk result (λ session. Self.Input.sound session.source × Self.Output.sound session.sink) }
        ensures kept { OpeningKept (faults self.old) (faults self.new) (sound self.old) (sound self.new)
            (result ≡ Err IoFault.Failed) (WhereTold (holds self.old) (λ h. IsMissing (h.sessions port))) };

    /// Opens the clock.
    ///
    /// `Failed` comes only where the count of faults rose in this call; over a sound host, where it was opened before.
    /// `NoMemory` changes nothing.
    fn clock(&mut self) -> Result<Self::Clock, IoFault>
        ensures asked { Asks (asked self.old) (asked self.new) Asked.Clock result }
        ensures lends { Lends (holds self.old) (holds self.new) (λ h clock. h.clock ≡ here clock)
            (λ h. with_clock h lent) result }
        ensures gives { sound self.old → IfOk result Self.Clock.sound }
        ensures kept { OpeningKept (faults self.old) (faults self.new) (sound self.old) (sound self.new)
            (result ≡ Err IoFault.Failed) (WhereTold (holds self.old) (λ h. IsMissing h.clock)) };

    /// Takes a source back. It can't fail: the opening made room for it.
    fn keep_source(&mut self, name: &str, source: Self::Source)
        requires { WhereTold (holds self.old) (λ h. IsKnown (h.sources name.now)) }
        ensures asked { asked self.new ≡ asked self.old }
        ensures holds { Regains (holds self.old) (holds self.new) (λ h. with_source h name.now (here source)) }
        ensures sound { Self.Source.sound source → sound self.old → sound self.new }
        ensures faults { faults self.new ≡ faults self.old };

    /// Takes a disk back. It can't fail: the opening made room for it.
    fn keep_disk(&mut self, name: &str, disk: Self::Disk)
        requires { WhereTold (holds self.old) (λ h. IsKnown (h.disks name.now)) }
        ensures asked { asked self.new ≡ asked self.old }
        ensures holds { Regains (holds self.old) (holds self.new) (λ h. with_disk h name.now (here disk)) }
        ensures sound { Self.Disk.sound disk → sound self.old → sound self.new }
        ensures faults { faults self.new ≡ faults self.old };

    /// Takes a link back. It can't fail: the opening made room for it.
    fn keep_link(&mut self, port: u16, link: Self::Link)
        requires { WhereTold (holds self.old) (λ h. IsKnown (h.links port)) }
        ensures asked { asked self.new ≡ asked self.old }
        ensures holds { Regains (holds self.old) (holds self.new) (λ h. with_link h port (here link)) }
        ensures sound { Self.Link.sound link → sound self.old → sound self.new }
        ensures faults { faults self.new ≡ faults self.old };

    /// Takes a session back, by its source and its sink. It can't fail: the opening made room for it.
    fn keep_session(&mut self, port: u16, source: Self::Input, sink: Self::Output)
        requires { WhereTold (holds self.old) (λ h. IsKnown (h.sessions port)) }
        ensures asked { asked self.new ≡ asked self.old }
        ensures holds { Regains (holds self.old) (holds self.new) (λ h. with_session h port (here (record { source = source; sink = sink }))) }
        ensures sound { Self.Input.sound source → Self.Output.sound sink → sound self.old → sound self.new }
        ensures faults { faults self.new ≡ faults self.old };

    /// Takes a clock back. It can't fail: the opening made room for it.
    fn keep_clock(&mut self, clock: Self::Clock)
        requires { WhereTold (holds self.old) (λ h. IsKnown h.clock) }
        ensures asked { asked self.new ≡ asked self.old }
        ensures holds { Regains (holds self.old) (holds self.new) (λ h. with_clock h (here clock)) }
        ensures sound { Self.Clock.sound clock → sound self.old → sound self.new }
        ensures faults { faults self.new ≡ faults self.old };
}
