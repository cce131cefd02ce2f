//! The rounds of a command: in each, every brick takes a turn, and then the client looks at its link.

ghost use Rattle.std.specs.Prelude.{◌≡◌, ◌+◌, ◌<◌, ◌≤◌, ◌^◌, List, Option, length, IfOk, IfErr, OnOk, OnErr};
ghost use Rattle.fab_io.specs.declared.links.Datagram.{Datagram};
ghost use Rattle.fab_io.specs.Datagrams.{Stays};
ghost use Rattle.fab_io.specs.Ends.{Kept};
ghost use Rattle.hosting.specs.declared.clients.Standing.TheVariants.{Waits};
ghost use Rattle.hosting.specs.Commanded.{opened, asking, IsRangeOf, Stands};
ghost use Rattle.hosting.specs.Faults.{AtClientLink, AtCommand};
ghost use Rattle.serving.specs.Datagrams.{Looked};
ghost use Rattle.hosting.specs.Rounds.{Heard, HearsOnce, KeepsBricks, Took, told, port_of, RunsRange, StopsRange};

use crate::clients::{ClientEnd, Standing, open};
use crate::commands::Command;
use crate::faults::HostFault;
use crate::replies::{Wanted, hear};
use fab_io::Link;
use front::{Range, RangeAnswer};
use layout::Layout;
use std::alloc::Global;

/// The bricks that a process hosts, as the client of a run of commands sees them: all of them take a turn, or one of them fails in it.
pub trait Bricks {
    ghost use Rattle.std.specs.Prelude.{◌≡◌, IfErr, MatchResult};
    ghost use Rattle.hosting.specs.declared.faults.HostFault.{HostFault};
    ghost use Rattle.hosting.specs.declared.faults.HostFault.TheVariants.{NoMemory};
    ghost use Rattle.hosting.specs.Faults.{AtBricks};

    // Each brick took a turn, in order.
    ghost takes: { Self → Self → Type 0 };

    // Some bricks took a turn, in order, and the next one was stopped in it by this fault.
    ghost stops: { Self → Self → HostFault → Type 0 };

    // No call fails from here on but for want of memory.
    ghost sound: { Self → Type 0 };

    /// Has each brick take a turn, in order of number.
    fn take_turns(&mut self) -> Result<(), HostFault>
        ensures takes { MatchResult result (λ _. takes self.old self.new) (λ fault. stops self.old self.new fault) }
        ensures only { IfErr result AtBricks }
        ensures stays { sound self.old → sound self.new }
        ensures never { sound self.old → IfErr result (λ fault. fault ≡ NoMemory) };
}

impl<L: Link> ClientEnd<L> {
    /// The client's part of a round: it looks at its link once, and where the operation that it waits for ended, it asks for the next one.
    fn hear_once(
        &mut self,
        alloc: Global,
        layout: &Layout,
        port: u16,
        range: &mut Range<'_>,
        wanted: Wanted,
    ) -> Result<Standing, HostFault>
        requires few { self.old.sent + 1 < 2 ^ 64 }
        requires stands { Stands range.old (Waits wanted) }
        requires parts { IsRangeOf layout.now range.old }
        ensures hears { OnOk result ((heard : Heard) × HearsOnce port (record { sent = self.old.sent; range = range.old })
            (record { sent = self.new.sent; range = range.new }) (told (L.waiting self.old.link) (L.sent self.old.link))
            (told (L.waiting self.new.link) (L.sent self.new.link)) heard) }
        ensures stands { IfOk result (Stands range.new) }
        ensures parts { OnOk result (IsRangeOf layout.now range.new) }
        ensures few { OnOk result (self.new.sent ≤ self.old.sent + 1) }
        ensures lost { OnErr result ((lost : List (Option Datagram)) × (length lost ≤ 1)
            × Looked (L.waiting self.old.link) (L.waiting self.new.link) lost) }
        ensures unsent { OnErr result (Stays (L.sent self.old.link) (L.sent self.new.link)) }
        ensures only { IfErr result AtClientLink }
        ensures kept { Kept (L.faults self.old.link) (L.faults self.new.link) (L.sound self.old.link) (L.sound self.new.link) (result ≡ Err HostFault.ClientLink) }
    {
        match hear(
            alloc,
            &mut self.link,
            &mut self.room,
            port,
            self.sent,
            wanted,
        )? {
            Some(end) => {
                range.on_end(end)?;
                self.ask_next(alloc, layout, port, range)
            }
            None => Ok(Standing::Waits(wanted)),
        }
    }
}

/// The port of the brick of this number, 0 where there is no such brick.
fn port_of(layout: &Layout, brick: u64) -> u16
    ensures { result ≡ port_of layout.now brick }
{
    if brick < u64::from(layout.bricks()) {
        layout.port() + brick as u16
    } else {
        0
    }
}

/// A client of the bricks that a process hosts: the bricks, the client's end, and how many turns are left.
#[derive(Drop)]
pub struct HostedClient<B: Bricks, L: Link> {
    /// The bricks.
    pub bricks: B,
    /// The client's end.
    pub end: ClientEnd<L>,
    /// How many turns are left.
    pub turns: u64,
}

impl<B: Bricks, L: Link> HostedClient<B, L> {
    /// Asks the brick of a port for the operations of a range, one after another, and takes a round for each turn until the range is answered.
    /// Its answer hands over the bytes that came. `None` says that no turn is left, and the client waits.
    ///
    /// # Errors
    ///
    /// `Disk`, `Link` and `Clock` only where the bricks were stopped by that fault; `ClientLink` only where the count of faults of the client's
    /// link rose; `NoMemory` where no memory was left. What was done until then stays done.
    pub fn run_range(
        &mut self,
        alloc: Global,
        layout: &Layout,
        port: u16,
        mut range: Range<'_>,
    ) -> Result<Option<RangeAnswer>, HostFault>
        requires few { self.old.end.sent + self.old.turns + 1 < 2 ^ 64 }
        requires parts { IsRangeOf layout.now range }
        ensures runs { IfOk result (λ answer. (rounds : List Heard)
            × RunsRange port range.entry self.old.end.sent self.new.end.sent self.old.turns self.new.turns (told (L.waiting self.old.end.link)
            (L.sent self.old.end.link)) (told (L.waiting self.new.end.link) (L.sent self.new.end.link)) rounds answer
            × Took B.takes rounds self.old.bricks self.new.bricks) }
        ensures few { OnOk result (self.new.end.sent + self.new.turns ≤ self.old.end.sent + self.old.turns + 1) }
        ensures stopped { IfErr result (StopsRange B.takes B.stops port range.entry self.old.end.sent self.old.turns (told (L.waiting self.old.end.link)
            (L.sent self.old.end.link)) (told (L.waiting self.new.end.link) (L.sent self.new.end.link)) self.old.bricks self.new.bricks) }
        ensures bricks { KeepsBricks B.sound self.old.bricks self.new.bricks result }
        ensures only { IfErr result AtCommand }
        ensures kept { Kept (L.faults self.old.end.link) (L.faults self.new.end.link) (L.sound self.old.end.link) (L.sound self.new.end.link)
            (result ≡ Err HostFault.ClientLink) }
    {
        let mut standing = self.end.ask_next(alloc, layout, port, &range)?;
        loop {
            let wanted = match standing {
                Standing::Waits(wanted) => wanted,
                Standing::Ended => return Ok(Some(range.into_answer())),
            };
            if self.turns == 0 {
                return Ok(None);
            }
            self.turns -= 1;
            self.bricks.take_turns()?;
            standing = self.end.hear_once(alloc, layout, port, &mut range, wanted)?;
        }
    }

    /// Runs a command: the range of it, at its brick. `None` says that no turn is left, and the command waits.
    pub(crate) fn run_command(
        &mut self,
        alloc: Global,
        layout: &Layout,
        command: &Command,
    ) -> Result<Option<RangeAnswer>, HostFault>
        requires few { self.old.end.sent + self.old.turns + 1 < 2 ^ 64 }
        ensures runs { IfOk result (λ answer. (rounds : List Heard) × RunsRange (port_of layout.now command.now.brick) (opened layout.now command.now)
            self.old.end.sent self.new.end.sent self.old.turns self.new.turns (told (L.waiting self.old.end.link) (L.sent self.old.end.link))
            (told (L.waiting self.new.end.link) (L.sent self.new.end.link)) rounds answer × Took B.takes rounds self.old.bricks self.new.bricks) }
        ensures few { OnOk result (self.new.end.sent + self.new.turns ≤ self.old.end.sent + self.old.turns + 1) }
        ensures stopped { IfErr result (StopsRange B.takes B.stops (port_of layout.now command.now.brick) (opened layout.now command.now)
            self.old.end.sent self.old.turns (told (L.waiting self.old.end.link) (L.sent self.old.end.link)) (told (L.waiting self.new.end.link)
            (L.sent self.new.end.link)) self.old.bricks self.new.bricks) }
        ensures bricks { KeepsBricks B.sound self.old.bricks self.new.bricks result }
        ensures only { IfErr result AtCommand }
        ensures kept { Kept (L.faults self.old.end.link) (L.faults self.new.end.link) (L.sound self.old.end.link) (L.sound self.new.end.link)
            (result ≡ Err HostFault.ClientLink) }
    {
        let _ = layout.bricks();
        let port = port_of(layout, command.brick);
        match open(alloc, layout, command) {
            Ok(range) => self.run_range(alloc, layout, port, range),
            Err(fault) => Err(HostFault::from(fault)),
        }
    }
}
