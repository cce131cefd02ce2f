// A host over the system, which tells nothing of what the system does.
ghost use Rattle.std.specs.Prelude.{◌≡◌, take, IfOk, MatchResult};
ghost use Rattle.std.specs.Io.{ReadsAtMost, StopsAt};
ghost use Rattle.fab_io.specs.Ends.{Kept};

use crate::asking::{ask, name_of};
use crate::hosts::{Asked, Connection, Host};
use crate::os_links::{OsLink, Turns};
use fab_disk::FileDisk;
use fab_io::{FileSource, IoFault, Source, StdSink, StdSource, SystemClock, UdpLink, raise};
use std::alloc::Global;
use std::fs::{File, Files};
use std::net::{Ipv4Addr, Net, OpenListener, OpenStream, TcpListener};
use std::path::Path;
use std::rc::Rc;
use std::{io, time};

/// A host that opens the files, the UDP and TCP ports of 127.0.0.1 and the clock of the system, and gives as standard input the source that
/// it was made over, once.
///
/// A session waits until a client comes to its port, and takes no other one; what is sent to it leaves at once.
/// A disk is a file that is locked while it is open, so that one that is open elsewhere is a fault. A fresh one is made
/// exclusively, and its folder is synced. Each error of the system is a fault; of one at which nothing was opened or made, a line on standard
/// error says the thing and the system's word for why. A host tells the calls asked of it and nothing else, and is never sound; what it is given
/// back it closes.
pub struct OsHost<'r, R: Files<File = File> + Net + time::Clock + Eprint, I: Source + Drop> {
    system: &'r R,
    input: Option<I>,
    turns: Rc<Turns>,
    asked: Vec<Asked>,
    faults: u64,
}

impl<'r, R: Files<File = File> + Net + time::Clock + Eprint, I: Source + Drop> Drop
    for OsHost<'r, R, I> {
    // Written out, it is proved once: a derived one is proved anew, with that of each part, in each crate above that lets one go.
    fn drop(self) {
        let Self {
            system: _,
            input: _,
            turns: _,
            asked: _,
            faults: _,
        } = self;
    }
}

impl<'r, R: Files<File = File> + Net + time::Clock + Eprint, I: Source + Drop> OsHost<'r, R, I> {
    /// A host over this system, whose standard input is this source.
    ///
    /// # Errors
    /// `NoMemory`.
    pub fn new(alloc: Global, system: &'r R, input: I) -> Result<OsHost<'r, R, I>, IoFault> {
        let turns = match Rc::new(alloc, Turns::none()) {
            Ok(turns) => turns,
            Err(_) => return Err(IoFault::NoMemory),
        };
        Ok(OsHost {
            system,
            input: Some(input),
            turns,
            asked: Vec::new(alloc),
            faults: 0,
        })
    }
}

impl<'r, R: Files<File = File> + Net + time::Clock + Eprint, I: Source + Drop> Host
    for OsHost<'r, R, I> {
    ghost use Rattle.std.specs.Prelude.{None};

    type Source = OsSource<I>;

    type Disk = FileDisk;

    type Link = OsLink;

    type Input = StdSource<R::Stream>;

    type Output = StdSink<R::Stream>;

    type Clock = SystemClock<&'r R>;

    ghost faults = { λ h. h.faults };

    ghost asked = { λ h. h.asked.items };

    ghost holds = { λ _. None };

    ghost sound = { λ _. ⊥ };

    fn source(&mut self, name: &str) -> Result<OsSource<I>, IoFault> {
        let alloc: Global = *self.asked.allocator();
        ask(&mut self.asked, Asked::Source(name_of(alloc, name)?))?;
        if name == "-" {
            return match self.input.take() {
                Some(input) => Ok(OsSource::new(Origin::Input(input))),
                None => {
                    let _ = eprintln!(self.system; "standard input: it was opened before");
                    Err(raise(&mut self.faults))
                }
            };
        }
        match FileSource::open(self.system, name) {
            Ok(file) => Ok(OsSource::new(Origin::File(file))),
            Err(error) => {
                let _ = eprintln!(self.system; "source {name}: {error}");
                Err(raise(&mut self.faults))
            }
        }
    }

    fn disk(&mut self, name: &str, fresh: bool) -> Result<FileDisk, IoFault> {
        let alloc: Global = *self.asked.allocator();
        let asked = name_of(alloc, name)?;
        ask(&mut self.asked, Asked::Disk { name: asked, fresh })?;
        match open_disk(self.system, name, fresh) {
            Ok(file) => Ok(FileDisk::new(file)),
            Err(error) => {
                let _ = eprintln!(self.system; "disk {name}: {error}");
                Err(raise(&mut self.faults))
            }
        }
    }

    fn link(&mut self, port: u16) -> Result<OsLink, IoFault> {
        let turns = self.turns.clone()?;
        ask(&mut self.asked, Asked::Link(port))?;
        match UdpLink::bind(self.system, port) {
            Ok(link) => Ok(OsLink::new(link, turns)),
            Err(error) => {
                let _ = eprintln!(self.system; "link {port}: {error}");
                Err(raise(&mut self.faults))
            }
        }
    }

    fn session(
        &mut self,
        port: u16,
    ) -> Result<Connection<StdSource<R::Stream>, StdSink<R::Stream>>, IoFault> {
        ask(&mut self.asked, Asked::Session(port))?;
        match accept(self.system, port) {
            Ok(session) => Ok(session),
            Err(error) => {
                let _ = eprintln!(self.system; "session {port}: {error}");
                Err(raise(&mut self.faults))
            }
        }
    }

    fn clock(&mut self) -> Result<SystemClock<&'r R>, IoFault> {
        ask(&mut self.asked, Asked::Clock)?;
        Ok(SystemClock::new(self.system))
    }

    fn keep_source(&mut self, _name: &str, _source: OsSource<I>) {}

    fn keep_disk(&mut self, _name: &str, _disk: FileDisk) {}

    fn keep_link(&mut self, _port: u16, link: OsLink) {
        link.close();
    }

    fn keep_session(
        &mut self,
        _port: u16,
        _source: StdSource<R::Stream>,
        _sink: StdSink<R::Stream>,
    ) {}

    fn keep_clock(&mut self, _clock: SystemClock<&'r R>) {}
}

// Waits for a client at this port of 127.0.0.1. What is sent to it leaves at once: a reply waits for no other one.
fn accept<R: Net>(
    net: &R,
    port: u16,
) -> io::Result<Connection<StdSource<R::Stream>, StdSink<R::Stream>>> {
    let (stream, _) = TcpListener::bind(net, (Ipv4Addr::LOCALHOST, port))?.accept()?;
    stream.set_nodelay(true)?;
    let sink = StdSink::new(stream.try_clone()?);
    let source = StdSource::new(stream);
    Ok(Connection { source, sink })
}

// Opens a disk's file and locks it. A fresh one must not be there before; it stays if its lock fails, or the sync of its folder.
fn open_disk<R: Files<File = File>>(files: &R, name: &str, fresh: bool) -> io::Result<File> {
    let file = File::options()
        .read(true)
        .write(true)
        .create_new(fresh)
        .open(files, name)?;
    file.try_lock()?;
    if fresh {
        sync_folder(files, name)?;
    }
    Ok(file)
}

// Brings to the medium that a file of this name is there.
fn sync_folder<R: Files<File = File>>(files: &R, name: &str) -> io::Result<()> {
    let folder = match Path::new(name).parent() {
        Some(folder) if !folder.as_str().is_empty() => File::open(files, folder)?,
        _ => File::open(files, ".")?,
    };
    folder.sync_all()
}

/// A source of an [`OsHost`]: a file, or the source that it gives as standard input. It tells nothing, and is never sound.
pub struct OsSource<I: Source + Drop> {
    origin: Origin<I>,
    came: usize,
    faults: u64,
}

impl<I: Source + Drop> Drop for OsSource<I> {
    // Written out, it is proved once: a derived one is proved anew, with that of each part, in each crate above that lets one go.
    fn drop(self) {
        let Self {
            origin: _,
            came: _,
            faults: _,
        } = self;
    }
}

// Where the bytes come from.
#[derive(Drop)]
enum Origin<I: Source + Drop> {
    Input(I),
    File(FileSource),
}

impl<I: Source + Drop> OsSource<I> {
    fn new(origin: Origin<I>) -> OsSource<I> {
        OsSource {
            origin,
            came: 0,
            faults: 0,
        }
    }

    // Tells what a read of the origin came to, and answers it. A fault of the origin is one of the source.
    fn answer(&mut self, read: Result<usize, IoFault>) -> Result<usize, IoFault>
        ensures same { result ≡ read }
        ensures came { MatchResult result (λ n. self.new.came ≡ n) (λ _. self.new.came ≡ 0) }
        ensures kept { Kept self.old.faults self.new.faults ⊥ ⊥ (result ≡ Err IoFault.Failed) }
    {
        self.came = 0;
        match read {
            Ok(count) => {
                self.came = count;
                Ok(count)
            }
            Err(IoFault::Failed) => Err(raise(&mut self.faults)),
            Err(IoFault::NoMemory) => Err(IoFault::NoMemory),
        }
    }
}

impl<I: Source + Drop> Source for OsSource<I> {
    ghost use Rattle.std.specs.Prelude.{None};

    ghost faults = { λ s. s.faults };

    ghost told = { λ _. None };

    ghost came = { λ s. s.came };

    ghost sound = { λ _. ⊥ };

    fn read(&mut self, into: &mut [u8]) -> Result<usize, IoFault> {
        let read = read_from(&mut self.origin, into);
        self.answer(read)
    }

    fn read_through(&mut self, last: u8, into: &mut [u8]) -> Result<usize, IoFault> {
        let read = read_through_from(&mut self.origin, last, into);
        self.answer(read)
    }
}

fn read_from<I: Source + Drop>(origin: &mut Origin<I>, into: &mut [u8]) -> Result<usize, IoFault>
    ensures { ReadsAtMost result into.new }
{
    match origin {
        Origin::Input(input) => input.read(into),
        Origin::File(file) => file.read(into),
    }
}

fn read_through_from<I: Source + Drop>(
    origin: &mut Origin<I>,
    last: u8,
    into: &mut [u8],
) -> Result<usize, IoFault>
    ensures within { ReadsAtMost result into.new }
    ensures stops { IfOk result (λ n. StopsAt (take n into.new) last) }
{
    match origin {
        Origin::Input(input) => input.read_through(last, into),
        Origin::File(file) => file.read_through(last, into),
    }
}
