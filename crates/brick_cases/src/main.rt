//! Runs the program `brick` over files and ports of this machine, and over things in memory, and prints how each command ends.
//!
//! A line of standard input is the words of a command. A word that begins with `@` is a name in a folder of this process; `@layout` is the
//! layout of `data/` with a port of this process before it, and `@port` is a TCP port of this process. Behind ` < ` stands the name of a file in
//! `data/`, which is the standard input of the command. The line `empty NAME` makes an empty file. A line `client NAME WORDS..` runs a command
//! while a client comes to the TCP port that it opens, and says the bytes of the file NAME in `data/`.
//!
//! A line `memory WORDS..` runs a command over a host in memory, which keeps what it holds from line to line, and holds the layout of `data/`
//! as `layout`. Behind ` < ` stands the name of a file in `data/`: its lines `PORT HEX` are the datagrams that wait at the link of brick 0.
//! The line `learnt NAME MEMBERS..` puts a disk into that host with a store of brick 0 that has learnt view 2 of group 0, with these members. The line
//! `opening NAME` prints which opening the next one of the store on a disk of that host is.
//! After the line `fail` the next call of that host fails. The line `session PIECE NAME REPLIES` puts a session into that host, whose client sends the
//! bytes of the file NAME in `data/`, at most PIECE of them at a read, and links at which the datagrams of the file REPLIES wait for the bricks' client;
//! that is `data/replies` where no other is named.
//!
//! For each command its line, its status and what it printed are printed. For one in memory the datagrams that were sent by brick 0 and by the bricks'
//! client follow, and for both kinds of a session what was sent to its client.
#![tactic(auto)]

mod stores;
mod visitors;

use crate::stores::{learnt_store, next_opening};
use crate::visitors::Visited;
use brick::brick;
use fab_base::Bytes;
use fab_host::{Connection, MemHost, OsHost};
use fab_io::{Datagram, MemClock, MemLink, MemSink, MemSource};
use std::alloc::Global;
use std::env::Env;
use std::fs::File;
use std::net::Net;
use std::rt::Files;
use std::{env, fs, io, process, str, time};

/// Ports below those that the system gives out: 64 for each of so many processes.
const FIRST_PORT: u32 = 10_000;

const PROCESSES: u32 = 300;

/// The TCP port of a process, behind its first.
const TCP_PORT: u32 = 63;

/// The port of brick 0 of the layout in `data/`.
const PORT: u16 = 17_000;

/// The ports of the other bricks, and that of the bricks' client.
const OTHER_PORTS: [u16; 2] = [17_001, 17_002];

const CLIENT_PORT: u16 = 0;

/// The port of the session.
const SESSION_PORT: u16 = 10_809;

/// What a command ends with: its status, and what it printed.
#[derive(Drop)]
struct Ending {
    status: u8,
    sink: MemSink,
}

impl Ending {
    /// Prints it behind its line.
    fn print(&self, rt: &impl Print, line: &str) -> io::Result<()> {
        let printed = str::from_utf8(self.sink.taken()).unwrap_or("no text\n");
        println!(rt; "{line}: {}\n{printed}", self.status)
    }
}

/// The error of a host or a text that found no memory, or of a line of datagrams that is none.
fn refused() -> io::Error {
    io::Error::from(io::ErrorKind::InvalidData)
}

/// The folder of this process, and the port of its session.
#[derive(Drop)]
struct Place {
    folder: String,
    session_port: u32,
}

impl Place {
    /// A new folder for the process of this number, with a layout in it.
    fn new(rt: &(impl Files + Env + AllocGlobal), number: u32) -> io::Result<Place> {
        let alloc = rt.alloc();
        let above = env::temp_dir(rt)?;
        let folder = format!(in alloc; "{}/brick-cases-{number}", above.as_str())?;
        fs::create_dir(rt, folder.as_str())?;
        let port = FIRST_PORT + number % PROCESSES * 64;
        let session_port = port + TCP_PORT;
        let place = Place {
            folder,
            session_port,
        };
        let rest = fs::read_to_string(rt, "layout")?;
        let layout = format!(in alloc; "port = {port}\n{rest}")?;
        let name = place.name(alloc, "@layout")?;
        fs::write(rt, name.as_str(), layout.as_bytes())?;
        Ok(place)
    }

    /// What a word stands for.
    fn name(&self, alloc: Global, word: &str) -> io::Result<String> {
        if word == "@port" {
            return Ok(format!(in alloc; "{}", self.session_port)?);
        }
        let Some(name) = word.strip_prefix('@') else {
            return Ok(String::from_str(alloc, word)?);
        };
        Ok(format!(in alloc; "{}/{name}", self.folder)?)
    }

    /// The words of a command.
    fn words(&self, alloc: Global, command: &str) -> io::Result<Vec<String>> {
        let mut words = Vec::new(alloc);
        for word in command.split(' ') {
            words.push(self.name(alloc, word)?)?;
        }
        Ok(words)
    }

    /// Runs a command over a system, with these bytes for its standard input.
    fn run(
        &self,
        system: &(impl Files<File = File> + Net + time::Clock + Eprint),
        alloc: Global,
        command: &str,
        input: Vec<u8>,
    ) -> io::Result<Ending> {
        let words = self.words(alloc, command)?;
        let input = MemSource::new(input);
        let Ok(mut host) = OsHost::new(alloc, system, input) else {
            return Err(refused());
        };
        let mut sink = MemSink::new(alloc);
        let status = brick(alloc, words.as_slice(), &mut host, &mut sink);
        Ok(Ending { status, sink })
    }

    /// Runs a command over the system while a client comes to its TCP port and says these bytes, and prints what was said to the client.
    fn run_visited(
        &self,
        rt: &(impl Files<File = File> + Net + time::Clock + Print + Eprint + AllocGlobal),
        line: &str,
        command: &str,
        says: &[u8],
    ) -> io::Result<()> {
        let alloc = rt.alloc();
        let system = Visited::new(rt, says);
        self.run(&system, alloc, command, Vec::new(alloc))?
            .print(rt, line)?;
        let mut heard = Vec::new(alloc);
        system.hear(&mut heard)?;
        let digits = hex::encode(alloc, heard.as_slice())?;
        println!(rt; "session {digits}")
    }

    /// Runs a command over a host in memory, with these datagrams at the link of brick 0.
    fn run_in_memory(
        &self,
        rt: &(impl Files + AllocGlobal),
        host: &mut MemHost,
        command: &str,
        datagrams: &str,
    ) -> io::Result<Ending> {
        let alloc = rt.alloc();
        let words = self.words(alloc, command)?;
        let waiting = if datagrams.is_empty() {
            Vec::new(alloc)
        } else {
            read_datagrams(alloc, fs::read_to_string(rt, datagrams)?.as_str())?
        };
        let layout = MemSource::new(fs::read(rt, "layout")?);
        if host.add_source("layout", layout).is_err()
            || host.add_link(PORT, MemLink::new(waiting)).is_err()
        {
            return Err(refused());
        }
        let mut sink = MemSink::new(alloc);
        let status = brick(alloc, words.as_slice(), host, &mut sink);
        Ok(Ending { status, sink })
    }
}

/// The datagrams of a file: a port and the bytes in HEX on each line.
fn read_datagrams(alloc: Global, text: &str) -> io::Result<Vec<Datagram>> {
    let mut datagrams = Vec::new(alloc);
    for line in text.lines() {
        let (port, digits) = line.split_once(' ').unwrap_or((line, ""));
        let Ok(port) = port.parse::<u16>() else {
            return Err(refused());
        };
        let Ok(bytes) = hex::decode(alloc, digits.as_bytes()) else {
            return Err(refused());
        };
        datagrams.push(Datagram {
            port,
            bytes: Bytes::from_vec(bytes),
        })?;
    }
    Ok(datagrams)
}

/// The bytes of a file of HEX lines.
fn read_bytes(alloc: Global, text: &str) -> io::Result<Vec<u8>> {
    let mut bytes = Vec::new(alloc);
    for line in text.lines() {
        let Ok(piece) = hex::decode(alloc, line.as_bytes()) else {
            return Err(refused());
        };
        bytes.extend_from_slice(&piece)?;
    }
    Ok(bytes)
}

/// Puts a session into a host, and the links that are missing, at that of the bricks' client with its datagrams.
fn add_session(
    rt: &(impl Files + AllocGlobal),
    host: &mut MemHost,
    piece: &str,
    name: &str,
    replies: &str,
) -> io::Result<()> {
    let alloc = rt.alloc();
    let mut source = MemSource::new(read_bytes(alloc, fs::read_to_string(rt, name)?.as_str())?);
    match piece.parse::<usize>() {
        Ok(piece) if piece > 0 => source.in_pieces_of(piece),
        _ => return Err(refused()),
    }
    let sink = MemSink::new(alloc);
    let replies = read_datagrams(alloc, fs::read_to_string(rt, replies)?.as_str())?;
    for port in OTHER_PORTS {
        if host.add_link(port, MemLink::new(Vec::new(alloc))).is_err() {
            return Err(refused());
        }
    }
    let session = Connection { source, sink };
    if host.add_link(CLIENT_PORT, MemLink::new(replies)).is_err()
        || host.add_session(SESSION_PORT, session).is_err()
    {
        return Err(refused());
    }
    Ok(())
}

/// Puts a disk into a host with a store that has learnt a view, by the words of a line: its name, and the view's members.
fn add_learnt(alloc: Global, host: &mut MemHost, words: &str) -> io::Result<()> {
    let (name, members) = words.split_once(' ').unwrap_or((words, ""));
    let disk = learnt_store(alloc, members)?;
    match host.add_disk(name, disk) {
        Ok(()) => Ok(()),
        Err(_) => Err(refused()),
    }
}

/// Prints which opening the next one of the store on a disk of a host is.
fn print_opening(rt: &(impl Print + AllocGlobal), host: &MemHost, name: &str) -> io::Result<()> {
    let Some(disk) = host.disk_named(name) else {
        return Err(refused());
    };
    let opening = next_opening(rt.alloc(), disk)?;
    println!(rt; "opening {name}: {opening}\n")
}

/// Prints the datagrams that were sent over the links of brick 0 and of the bricks' client, and the bytes that were sent to the session's.
fn print_sent(rt: &(impl Print + AllocGlobal), host: &MemHost) -> io::Result<()> {
    for port in [PORT, CLIENT_PORT] {
        if let Some(link) = host.link_at(port) {
            for datagram in link.sent() {
                let digits = hex::encode(rt.alloc(), datagram.bytes.as_slice())?;
                println!(rt; "{} {digits}", datagram.port)?;
            }
        }
    }
    if let Some(session) = host.session_at(SESSION_PORT) {
        let digits = hex::encode(rt.alloc(), session.sink.taken())?;
        println!(rt; "session {digits}")?;
    }
    Ok(())
}

fn main(rt: HostRuntime) -> io::Result<()> {
    let alloc = rt.alloc();
    let place = Place::new(&rt, process::id(rt.process()))?;
    let mut host = MemHost::new(alloc, MemClock::new(Vec::new(alloc)));
    for line in rt.lines(alloc) {
        let line = line?;
        let line = line.as_str();
        if let Some(name) = line.strip_prefix("empty ") {
            fs::write(&rt, place.name(alloc, name)?.as_str(), b"".as_slice())?;
        } else if line == "fail" {
            let next = host.asked().len() as u64 + 1;
            host.fail_at(vec![in alloc; next; 1]?);
        } else if let Some(rest) = line.strip_prefix("session ") {
            let (piece, names) = rest.split_once(' ').unwrap_or((rest, ""));
            let (name, replies) = names.split_once(' ').unwrap_or((names, "replies"));
            add_session(&rt, &mut host, piece, name, replies)?;
        } else if let Some(rest) = line.strip_prefix("learnt ") {
            add_learnt(alloc, &mut host, rest)?;
        } else if let Some(name) = line.strip_prefix("opening ") {
            print_opening(&rt, &host, name)?;
        } else if let Some(rest) = line.strip_prefix("client ") {
            let (name, command) = rest.split_once(' ').unwrap_or((rest, ""));
            let says = read_bytes(alloc, fs::read_to_string(&rt, name)?.as_str())?;
            place.run_visited(&rt, line, command, says.as_slice())?;
        } else if let Some(rest) = line.strip_prefix("memory ") {
            let (command, datagrams) = rest.split_once(" < ").unwrap_or((rest, ""));
            let ending = place.run_in_memory(&rt, &mut host, command, datagrams)?;
            ending.print(&rt, line)?;
            print_sent(&rt, &host)?;
        } else {
            let (command, input) = line.split_once(" < ").unwrap_or((line, ""));
            let input = if input.is_empty() {
                Vec::new(alloc)
            } else {
                fs::read(&rt, input)?
            };
            place.run(&rt, alloc, command, input)?.print(&rt, line)?;
        }
    }
    fs::remove_dir_all(&rt, place.folder.as_str())
}
