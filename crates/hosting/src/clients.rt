//! The client of a run of commands: it asks for the operations of a command's range, one at a time.

ghost use Rattle.std.specs.Prelude.{◌≡◌, ◌+◌, ◌≤◌, ◌<◌, ◌^◌, ◌∷◌, [], length, IfOk, IfErr, OnOk, OnErr, MatchResult};
ghost use Rattle.fab_io.specs.Datagrams.{Stays, Grows};
ghost use Rattle.fab_io.specs.Ends.{Kept};
ghost use Rattle.fab_base.specs.Layouts.{group_of};
ghost use Rattle.fab_base.specs.Asks.{bytes_by};
ghost use Rattle.front.specs.Ranges.{next_of};
ghost use Rattle.layout.specs.Places.{blocks_of};
ghost use Rattle.hosting.specs.Asks.{ask_datagram, wanted_of};
ghost use Rattle.hosting.specs.Commanded.{is_ascii, name_of, range_of, refused_by, opened, bytes_asked, IsRangeOf, Stands, sent_by, asks_by};
ghost use Rattle.hosting.specs.Faults.{AtClientLink};

use crate::commands::{Access, Command};
use crate::faults::HostFault;
use crate::replies::Wanted;
use crate::rooms::Room;
use fab_base::{Ask, Bytes, GroupId, NoMem, Op, Refusal};
use fab_io::{IoFault, Link};
use fab_wire::encode;
use front::Range;
use layout::Layout;
use messages::{ClientAsk, Message};
use std::alloc::Global;

/// A client's end: its link, room for a datagram, and how many datagrams it sent.
#[derive(Drop)]
pub struct ClientEnd<L: Link> {
    /// Its link.
    pub link: L,
    /// Room for the datagram that comes next.
    pub room: Room,
    /// How many datagrams it sent.
    pub sent: u64,
}

/// How the range of a command stands.
#[derive(Clone, Copy)]
pub enum Standing {
    /// It waits for the end of an operation.
    Waits(Wanted),
    /// It has ended.
    Ended,
}

/// Whether a name is in ASCII.
fn is_ascii(name: &[u8]) -> bool
    ensures { result ≡ is_ascii name.now }
{
    name.iter().all(|byte| *byte < 128)
}

/// The name of a volume. One that is not in ASCII is no volume's, as the empty one.
fn name_of(name: &[u8]) -> &str
    ensures { result.now ≡ name_of name.now }
{
    if !is_ascii(name) {
        return "";
    }
    match str::from_utf8(name) {
        Ok(text) => text,
        Err(_) => "",
    }
}

/// The range of a command.
fn range_of<'l>(alloc: Global, layout: &'l Layout, command: &Command) -> Result<Range<'l>, NoMem>
    ensures { IfOk result (λ range. range ≡ range_of layout.now command.now) }
{
    let volume = name_of(command.volume.as_slice());
    match &command.access {
        Access::Read(count) => Range::read(alloc, layout, volume, command.byte, *count),
        Access::Write(bytes) => Range::write(alloc, layout, volume, command.byte, bytes.as_slice()),
    }
}

/// Refuses the operation that a range wants, if it wants one, as a brick that is down does.
fn refuse(range: &mut Range<'_>) -> Result<(), NoMem>
    ensures { OnOk result (range.new ≡ refused_by (next_of range.old) range.old) }
{
    match range.next_ask()? {
        Some(_) => range.on_end(Err(Refusal::Down)),
        None => Ok(()),
    }
}

/// The range of a command. Where there is no such brick, the operation that it wants is refused.
pub(crate) fn open<'l>(
    alloc: Global,
    layout: &'l Layout,
    command: &Command,
) -> Result<Range<'l>, NoMem>
    ensures { IfOk result (λ range. range ≡ opened layout.now command.now) }
{
    match range_of(alloc, layout, command) {
        Ok(mut range) => {
            if command.brick >= u64::from(layout.bricks()) {
                refuse(&mut range)?;
            }
            Ok(range)
        }
        Err(fault) => Err(fault),
    }
}

/// Asks the brick of a port for an operation.
fn send<L: Link>(alloc: Global, link: &mut L, port: u16, id: u64, ask: Ask) -> Result<(), HostFault>
    requires { length (bytes_by ask.op) ≤ 32768 }
    ensures waiting { Stays (L.waiting link.old) (L.waiting link.new) }
    ensures sent { MatchResult result (λ _. Grows (L.sent link.old) (L.sent link.new) (ask_datagram port id ask ∷ [])) (λ _. Stays (L.sent link.old) (L.sent link.new)) }
    ensures only { IfErr result AtClientLink }
    ensures kept { Kept (L.faults link.old) (L.faults link.new) (L.sound link.old) (L.sound link.new) (result ≡ Err HostFault.ClientLink) }
{
    let message = Message::Client(ClientAsk::new(alloc, id, ask));
    let bytes = encode(alloc, &message)?;
    match link.send(port, bytes.as_slice()) {
        Ok(()) => Ok(()),
        Err(IoFault::Failed) => Err(HostFault::ClientLink),
        Err(IoFault::NoMemory) => Err(HostFault::NoMemory),
    }
}

/// The data blocks of a stripe of a group, none where there is no such group.
fn stripe_blocks(layout: &Layout, group: GroupId) -> usize
    ensures value { result ≡ blocks_of (group_of layout.now group.0) }
    ensures few { result ≤ 255 }
{
    match layout.group(group) {
        Some(group) => usize::from(group.policy().m()),
        None => 0,
    }
}

/// What an operation is to be answered.
fn wanted_for(layout: &Layout, ask: &Ask) -> Wanted
    ensures { result ≡ wanted_of ask.now.op (bytes_asked layout.now ask.now) }
{
    let block = usize::from(layout.block());
    match ask.op {
        Op::ReadBlock(_) => Wanted::Bytes(block),
        Op::ReadStripe => Wanted::Bytes(stripe_blocks(layout, ask.group) * block),
        Op::WriteBlock(_, _) | Op::WriteStripe(_) => Wanted::Done,
    }
}

impl<L: Link> ClientEnd<L> {
    /// Asks for the operation that a range wants next, if it wants one, with the number after those of the datagrams that were sent.
    pub(crate) fn ask_next(
        &mut self,
        alloc: Global,
        layout: &Layout,
        port: u16,
        range: &Range<'_>,
    ) -> Result<Standing, HostFault>
        requires room { self.old.sent + 1 < 2 ^ 64 }
        requires parts { IsRangeOf layout.now range.now }
        ensures stands { IfOk result (Stands range.now) }
        ensures sent { OnOk result (self.new.sent ≡ sent_by self.old.sent (next_of range.now)) }
        ensures few { OnOk result (self.new.sent ≤ self.old.sent + 1) }
        ensures asks { OnOk result (Grows (L.sent self.old.link) (L.sent self.new.link) (asks_by port self.old.sent (next_of range.now))) }
        ensures unsent { OnErr result (Stays (L.sent self.old.link) (L.sent self.new.link)) }
        ensures waiting { Stays (L.waiting self.old.link) (L.waiting self.new.link) }
        ensures only { IfErr result AtClientLink }
        ensures kept { Kept (L.faults self.old.link) (L.faults self.new.link) (L.sound self.old.link) (L.sound self.new.link) (result ≡ Err HostFault.ClientLink) }
    {
        let Some(ask) = range.next_ask()? else {
            return Ok(Standing::Ended);
        };
        let wanted = wanted_for(layout, &ask);
        send(alloc, &mut self.link, port, self.sent + 1, ask)?;
        self.sent += 1;
        Ok(Standing::Waits(wanted))
    }
}
