//! A client that comes to a TCP port as soon as it is bound: there is no second thread, and the program waits for it there.

use std::alloc::Allocator;
use std::cell::Cell;
use std::fmt::Display;
use std::fs::{Files, Metadata, OpenOptions};
use std::io;
use std::io::{Read, Write};
use std::net::{Net, OpenStream, Shutdown, SocketAddr, UdpSocket};
use std::time::{Clock, Duration};

/// A system whose next TCP port has a client, which says these bytes and no more.
#[derive(Drop)]
pub(crate) struct Visited<'r, R: Net> {
    system: &'r R,
    says: &'r [u8],
    client: Cell<Option<R::Stream>>,
}

impl<'r, R: Net> Visited<'r, R> {
    /// This system, with a client that says these bytes.
    pub(crate) fn new(system: &'r R, says: &'r [u8]) -> Visited<'r, R> {
        Visited {
            system,
            says,
            client: Cell::new(None),
        }
    }

    /// Puts what was said to the client behind these bytes, up to the end of its stream; nothing where none came.
    pub(crate) fn hear(self, heard: &mut Vec<u8>) -> io::Result<()> {
        let Visited {
            system: _,
            says: _,
            client,
        } = self;
        if let Some(mut client) = client.into_inner() {
            client.read_to_end(heard)?;
        }
        Ok(())
    }
}

impl<R: Net> Net for Visited<'_, R> {
    type Stream = R::Stream;

    type Listener = R::Listener;

    fn bind(&self, addr: SocketAddr) -> io::Result<R::Listener> {
        let listener = self.system.bind(addr)?;
        let mut client = self.system.connect(addr)?;
        client.write_all(self.says)?;
        client.shutdown(Shutdown::Write)?;
        self.client.set(Some(client));
        Ok(listener)
    }

    fn connect(&self, addr: SocketAddr) -> io::Result<R::Stream> {
        self.system.connect(addr)
    }

    fn bind_udp(&self, addr: SocketAddr) -> io::Result<UdpSocket> {
        self.system.bind_udp(addr)
    }
}

impl<R: Net + Clock> Clock for Visited<'_, R> {
    fn monotonic(&self) -> io::Result<Duration> {
        self.system.monotonic()
    }

    fn since_1970(&self) -> io::Result<Duration> {
        self.system.since_1970()
    }
}

impl<R: Net + Eprint> Eprint for Visited<'_, R> {
    fn eprint<D: Display + Drop>(&self, value: D) -> io::Result<()> {
        self.system.eprint(value)
    }

    fn eprintln<D: Display + Drop>(&self, value: D) -> io::Result<()> {
        self.system.eprintln(value)
    }
}

impl<R: Net + Files> Files for Visited<'_, R> {
    type File = R::File;

    type Dir = R::Dir;

    fn open_file(&self, how: &OpenOptions, path: &str) -> io::Result<R::File> {
        self.system.open_file(how, path)
    }

    fn open_dir(&self, path: &str) -> io::Result<R::Dir> {
        self.system.open_dir(path)
    }

    fn metadata(&self, path: &str) -> io::Result<Metadata> {
        self.system.metadata(path)
    }

    fn symlink_metadata(&self, path: &str) -> io::Result<Metadata> {
        self.system.symlink_metadata(path)
    }

    fn copy(&self, from: &str, to: &str) -> io::Result<u64> {
        self.system.copy(from, to)
    }

    fn rename(&self, from: &str, to: &str) -> io::Result<()> {
        self.system.rename(from, to)
    }

    fn remove_file(&self, path: &str) -> io::Result<()> {
        self.system.remove_file(path)
    }

    fn create_dir(&self, path: &str) -> io::Result<()> {
        self.system.create_dir(path)
    }

    fn remove_dir(&self, path: &str) -> io::Result<()> {
        self.system.remove_dir(path)
    }

    fn remove_dir_all<B: Allocator>(&self, alloc: B, path: &str) -> io::Result<()> {
        self.system.remove_dir_all(alloc, path)
    }
}
