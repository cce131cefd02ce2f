// Adapters over the system: a file, a UDP socket, and its clock. They tell nothing of what the system does.
ghost use Rattle.std.specs.Prelude.{◌≡◌, ◌≤◌, length, IfOk, IfSome};
ghost use Rattle.fab_io.specs.Ends.{Kept};

use crate::clocks::Clock;
use crate::ends::Source;
use crate::fault::raise;
use crate::links::Link;
use crate::standard::StdSource;
use fab_base::IoFault;
use std::fs::{File, Files};
use std::io::ErrorKind;
use std::net::{Ipv4Addr, Net, UdpSocket};
use std::time::{Duration, SystemTime};
use std::{io, time};

/// A file as a source, from its beginning. It tells nothing, and is never sound.
pub struct FileSource {
    file: StdSource<File>,
}

impl Drop for FileSource {
    // Written out, it is proved once: a derived one is proved anew, with that of each part, in each crate above that lets one go.
    fn drop(self) {
        let Self { file: _ } = self;
    }
}

impl FileSource {
    /// Opens the file of this name.
    ///
    /// # Errors
    /// The system has no such file, or doesn't let it be read.
    pub fn open<R: Files<File = File>>(files: &R, name: &str) -> io::Result<FileSource> {
        Ok(FileSource {
            file: StdSource::new(File::open(files, name)?),
        })
    }
}

impl Source for FileSource {
    ghost use Rattle.std.specs.Prelude.{None};

    ghost faults = { λ s. s.file.faults };

    ghost told = { λ _. None };

    ghost came = { λ s. s.file.came };

    ghost sound = { λ _. ⊥ };

    fn read(&mut self, into: &mut [u8]) -> Result<usize, IoFault> {
        self.file.read(into)
    }
}

/// How long a look at a [`UdpLink`] waits, in milliseconds.
pub const MOST_WAIT: u64 = 10;

/// A UDP socket of 127.0.0.1 as a link.
///
/// A look waits for at most [`MOST_WAIT`] milliseconds, or not at all. Each error of the socket is a fault, also a
/// datagram of more than 65,507 bytes, which UDP can't send. It tells nothing, and is never sound.
pub struct UdpLink {
    socket: UdpSocket,
    waits: bool,
    faults: u64,
}

impl Drop for UdpLink {
    // Written out, it is proved once: a derived one is proved anew, with that of each part, in each crate above that lets one go.
    fn drop(self) {
        let Self {
            socket: _,
            waits: _,
            faults: _,
        } = self;
    }
}

impl UdpLink {
    /// A link at this port of 127.0.0.1, or at any free one where it is 0. A look waits.
    ///
    /// # Errors
    /// The system doesn't give the port, as where it is in use.
    pub fn bind<R: Net>(net: &R, port: u16) -> io::Result<UdpLink> {
        let socket = UdpSocket::bind(net, (Ipv4Addr::LOCALHOST, port))?;
        socket.set_read_timeout(Some(Duration::from_millis(MOST_WAIT)))?;
        Ok(UdpLink {
            socket,
            waits: true,
            faults: 0,
        })
    }

    /// From now on a look waits, or it doesn't. Where the system refuses, it goes on as before.
    pub fn set_waiting(&mut self, waits: bool)
        ensures { self.new.faults ≡ self.old.faults }
    {
        // Each look says whether it waits, and the system is told only of a change.
        if waits != self.waits && self.socket.set_nonblocking(!waits).is_ok() {
            self.waits = waits;
        }
    }
}

impl Link for UdpLink {
    ghost use Rattle.std.specs.Prelude.{None};

    ghost faults = { λ l. l.faults };

    ghost waiting = { λ _. None };

    ghost sent = { λ _. None };

    ghost sound = { λ _. ⊥ };

    fn recv(&mut self, into: &mut [u8]) -> Result<Option<(u16, usize)>, IoFault> {
        match self.socket.recv_from(into) {
            Ok((count, from)) => Ok(Some((from.port(), count))),
            // None came while it waited, or a signal ended the wait.
            Err(error) => match error.kind() {
                ErrorKind::WouldBlock | ErrorKind::TimedOut | ErrorKind::Interrupted => Ok(None),
                _ => Err(raise(&mut self.faults)),
            },
        }
    }

    fn send(&mut self, port: u16, from: &[u8]) -> Result<(), IoFault> {
        match self.socket.send_to(from, (Ipv4Addr::LOCALHOST, port)) {
            Ok(_) => Ok(()),
            Err(_) => Err(raise(&mut self.faults)),
        }
    }
}

/// The system's clock, in milliseconds since the beginning of 1970. It tells nothing, and is never sound.
#[derive(Drop)]
pub struct SystemClock<T: time::Clock + Drop> {
    time: T,
    faults: u64,
}

impl<T: time::Clock + Drop> SystemClock<T> {
    /// The clock that this handle reads, as `&rt`.
    pub fn new(time: T) -> SystemClock<T> {
        SystemClock { time, faults: 0 }
    }
}

impl<T: time::Clock + Drop> Clock for SystemClock<T> {
    ghost use Rattle.std.specs.Prelude.{None};

    ghost faults = { λ c. c.faults };

    ghost coming = { λ _. None };

    ghost sound = { λ _. ⊥ };

    fn now(&mut self) -> Result<u64, IoFault> {
        match milliseconds(&self.time) {
            Ok(moment) => Ok(moment),
            Err(_) => Err(raise(&mut self.faults)),
        }
    }
}

/// The milliseconds since the beginning of 1970. A clock set before that, or past what a `u64` counts, is an error.
fn milliseconds(time: &impl time::Clock) -> io::Result<u64> {
    match SystemTime::now(time)?.duration_since(SystemTime::UNIX_EPOCH) {
        Ok(since) => match u64::try_from(since.as_millis()) {
            Ok(moment) => Ok(moment),
            Err(_) => Err(io::Error::from(ErrorKind::InvalidData)),
        },
        Err(_) => Err(io::Error::from(ErrorKind::InvalidData)),
    }
}
