//! `brick serve`.

ghost use Rattle.std.specs.Prelude.{◌≡◌, ◌≢◌, ◌<◌, false};
ghost use Rattle.fab_host.specs.Opening.{WhereTold};
ghost use Rattle.fab_io.specs.Ends.{Kept};
ghost use Rattle.node.specs.Running.{IsSameBrick};
ghost use Rattle.serving.specs.Ports.{ports_of, port_of};
ghost use Rattle.brick.specs.Endings.{status_of, IsDone};
ghost use Rattle.brick.specs.Hosts.{host_seen, Has};
ghost use Rattle.brick.specs.Layouts.{brick_of};
ghost use Rattle.brick.specs.Openings.{KnowsEquipment, IsSoundEquipment, OnceGivenBack};
ghost use Rattle.brick.specs.Serves.{ending_of, ServesTurns, ServesByDisk, ServesBrick, HasDisk};
ghost use Rattle.brick.specs.Views.{views};

use crate::endings::{Ending, say_serving};
use crate::layout_texts::brick_of;
use crate::openings::{Equipment, give_back, open_brick, port_of};
use fab_base::BrickId;
use fab_disk::Disk;
use fab_host::Host;
use fab_io::{Clock, IoFault, Link, Sink};
use layout::Layout;
use node::Node;
use serving::ServeFault;
use std::alloc::Global;

/// Has the brick of this number serve so many turns over the disk of this name, and gives back to the host what it opened.
pub(crate) fn serve<H: Host, K: Sink>(
    alloc: Global,
    host: &mut H,
    out: &mut K,
    name: &str,
    layout: Layout,
    id: u64,
    turns: u64,
) -> Ending
    ensures serves { ServesBrick (views H.Disk.Disk H.Link.Link H.Clock.Clock)
        layout (brick_of layout id) turns (host_seen (H.faults host.old) (H.asked host.old) (H.holds host.old))
        (host_seen (H.faults host.new) (H.asked host.new) (H.holds host.new)) name.now (K.told out.old) (K.told out.new) result }
    ensures stays { H.sound host.old → H.sound host.new }
    ensures sink { Kept (K.faults out.old) (K.faults out.new) (K.sound out.old) (K.sound out.new) (status_of result ≡ 6) }
    ensures done { H.sound host.old → K.sound out.old → id < layout.bricks → Has (H.holds host.old)
        (HasDisk H.Disk.tells H.Disk.seen layout (record { 0 = id }) name.now) → IsDone result }
{
    let me = match brick_of(&layout, id) {
        Some(me) => me,
        None => return Ending::Usage,
    };
    let (equipment, ending) = open_and_serve(alloc, host, out, name, &layout, me, turns);
    give_back(host, name, port_of(&layout, me), equipment);
    ending
}

/// Opens what a brick serves with, and has it serve; or opens as much as it can. It hands back what it opened.
fn open_and_serve<H: Host, K: Sink>(
    alloc: Global,
    host: &mut H,
    out: &mut K,
    name: &str,
    layout: &Layout,
    me: BrickId,
    turns: u64,
) -> (Equipment<H::Disk, H::Link, H::Clock>, Ending)
    requires { me.0 < layout.now.bricks }
    ensures serves { OnceGivenBack name.now (port_of (ports_of layout.now) me) result.0 (host_seen (H.faults host.new) (H.asked host.new) (H.holds host.new))
        (λ after. ServesByDisk (views H.Disk.Disk H.Link.Link H.Clock.Clock) layout.now me turns
        (host_seen (H.faults host.old) (H.asked host.old) (H.holds host.old)) after name.now (K.told out.old) (K.told out.new) result.1) }
    ensures knows { WhereTold (H.holds host.new) (KnowsEquipment name.now (port_of (ports_of layout.now) me) result.0) }
    ensures stays { H.sound host.old → H.sound host.new × IsSoundEquipment H.Disk.sound H.Link.sound H.Clock.sound result.0 }
    ensures sink { Kept (K.faults out.old) (K.faults out.new) (K.sound out.old) (K.sound out.new) (status_of result.1 ≡ 6) }
    ensures done { H.sound host.old → K.sound out.old → Has (H.holds host.old)
        (HasDisk H.Disk.tells H.Disk.seen layout.now me name.now) → IsDone result.1 }
{
    let (node, link) = match open_brick(alloc, host, name, layout, me) {
        Ok(opened) => opened,
        Err(refused) => return refused,
    };
    let mut clock = match host.clock() {
        Ok(clock) => clock,
        Err(fault) => {
            let equipment = Equipment::Linked(node.into_disk(), link);
            return (equipment, Ending::refusal(fault));
        }
    };
    let mut node = node;
    let mut link = link;
    let ending = serve_turns(alloc, out, &mut node, &mut link, &mut clock, turns);
    (Equipment::Timed(node.into_disk(), link, clock), ending)
}

/// Says that a brick serves, and has it serve its turns.
fn serve_turns<D: Disk, L: Link, C: Clock, K: Sink>(
    alloc: Global,
    out: &mut K,
    node: &mut Node<D>,
    link: &mut L,
    clock: &mut C,
    turns: u64,
) -> Ending
    requires { node.old.brick.halted ≡ false }
    ensures serves { ServesTurns (views D.Disk L.Link C.Clock)
        turns node.old node.new link.old link.new clock.old clock.new (K.told out.old) (K.told out.new) result }
    ensures same { IsSameBrick node.old node.new }
    ensures runs { result ≢ Ending.Disk → node.new.brick.halted ≡ false }
    ensures disk { D.sound node.old.brick.disk → D.sound node.new.brick.disk }
    ensures link { L.sound link.old → L.sound link.new }
    ensures clock { C.sound clock.old → C.sound clock.new }
    ensures sink { Kept (K.faults out.old) (K.faults out.new) (K.sound out.old) (K.sound out.new) (status_of result ≡ 6) }
    ensures done { D.sound node.old.brick.disk → L.sound link.old → C.sound clock.old → K.sound out.old → IsDone result }
{
    match say_serving(alloc, out, node.me()) {
        Ok(()) => ending_of(turns, serving::serve(alloc, node, link, clock, turns)),
        Err(IoFault::Failed) => Ending::Sink,
        Err(IoFault::NoMemory) => Ending::Memory,
    }
}

/// How the turns of a brick end the program.
fn ending_of(turns: u64, served: Result<u64, ServeFault>) -> Ending
    ensures { result ≡ ending_of turns served }
{
    match served {
        Ok(malformed) => Ending::Ended { turns, malformed },
        // A brick that was just started is not halted.
        Err(ServeFault::Disk | ServeFault::Halted) => Ending::Disk,
        Err(ServeFault::Link | ServeFault::Clock) => Ending::Host,
        Err(ServeFault::NoMemory) => Ending::Memory,
    }
}
