//! What is opened of a host for one brick, and given back.

ghost use Rattle.std.specs.Prelude.{◌≡◌, ◌≢◌, ◌<◌, false, IfOk, IfErr, MatchResult};
ghost use Rattle.fab_host.specs.Opening.{WhereTold};
ghost use Rattle.serving.specs.Ports.{ports_of, port_of};
ghost use Rattle.brick.specs.Endings.{status_of, IsDone};
ghost use Rattle.brick.specs.Hosts.{host_seen, Has};
ghost use Rattle.brick.specs.Openings.{KnowsEquipment, IsSoundEquipment, GivesBack, OpensBrick, RefusesBrick, HoldsBrick};
ghost use Rattle.brick.specs.Serves.{refusal_of, IsStarted, RefusesStore, MayStart};
ghost use Rattle.brick.specs.Views.{views};

use crate::endings::Ending;
use brick_store::OpenFault;
use fab_base::BrickId;
use fab_disk::Disk;
use fab_host::Host;
use fab_io::{Clock, Link};
use layout::Layout;
use node::Node;
use std::alloc::Global;

/// What was opened of a host for a brick so far, in this order, and has to be given back.
pub(crate) enum Equipment<D: Disk, L: Link, C: Clock> {
    /// Nothing.
    Nothing,
    /// Its disk.
    Disk(D),
    /// Its disk and its link.
    Linked(D, L),
    /// Its disk, its link and the clock.
    Timed(D, L, C),
}

/// Gives back to a host what was opened of it for a brick, from the last to the first.
pub(crate) fn give_back<H: Host>(
    host: &mut H,
    name: &str,
    port: u16,
    equipment: Equipment<H::Disk, H::Link, H::Clock>,
)
    requires { WhereTold (H.holds host.old) (KnowsEquipment name.now port equipment) }
    ensures gives { GivesBack name.now port equipment (host_seen (H.faults host.old) (H.asked host.old) (H.holds host.old))
        (host_seen (H.faults host.new) (H.asked host.new) (H.holds host.new)) }
    ensures stays { IsSoundEquipment H.Disk.sound H.Link.sound H.Clock.sound equipment → H.sound host.old → H.sound host.new }
{
    match equipment {
        Equipment::Nothing => {}
        Equipment::Disk(disk) => host.keep_disk(name, disk),
        Equipment::Linked(disk, link) => {
            host.keep_link(port, link);
            host.keep_disk(name, disk);
        }
        Equipment::Timed(disk, link, clock) => {
            host.keep_clock(clock);
            host.keep_link(port, link);
            host.keep_disk(name, disk);
        }
    }
}

/// Opens the disk of a brick, starts the brick whose store it holds, and opens the link of its port; or hands back what it opened, with how
/// that ends the program.
pub(crate) fn open_brick<H: Host>(
    alloc: Global,
    host: &mut H,
    name: &str,
    layout: &Layout,
    me: BrickId,
) -> Result<(Node<H::Disk>, H::Link), (Equipment<H::Disk, H::Link, H::Clock>, Ending)>
    requires { me.0 < layout.now.bricks }
    ensures opens { IfOk result (λ opened. OpensBrick (views H.Disk.Disk H.Link.Link H.Clock.Clock) layout.now me name.now
        (host_seen (H.faults host.old) (H.asked host.old) (H.holds host.old)) (host_seen (H.faults host.new) (H.asked host.new) (H.holds host.new))
        opened.0 opened.1) }
    ensures refuses { IfErr result (λ e. RefusesBrick (views H.Disk.Disk H.Link.Link H.Clock.Clock) layout.now me name.now
        (host_seen (H.faults host.old) (H.asked host.old) (H.holds host.old)) (host_seen (H.faults host.new) (H.asked host.new) (H.holds host.new))
        e.1 e.0) }
    ensures stays { H.sound host.old → H.sound host.new × MatchResult result (λ opened. H.Disk.sound opened.0.brick.disk × H.Link.sound opened.1)
        (λ e. IsSoundEquipment H.Disk.sound H.Link.sound H.Clock.sound e.0) }
    ensures sink { IfErr result (λ e. status_of e.1 ≢ 6) }
    ensures done { H.sound host.old → Has (H.holds host.old) (HoldsBrick H.Disk.tells H.Disk.seen layout.now me name.now) → IfErr result (λ e. IsDone e.1) }
{
    let disk = match host.disk(name, false) {
        Ok(disk) => disk,
        Err(fault) => return Err((Equipment::Nothing, Ending::refusal(fault))),
    };
    let node = match start::<H>(alloc, layout, me, disk) {
        Ok(node) => node,
        Err((ending, disk)) => return Err((Equipment::Disk(disk), ending)),
    };
    match host.link(port_of(layout, me)) {
        Ok(link) => Ok((node, link)),
        Err(fault) => Err((Equipment::Disk(node.into_disk()), Ending::refusal(fault))),
    }
}

/// Starts the brick whose store a disk holds; or hands the disk back, with how that ends the program.
fn start<H: Host>(
    alloc: Global,
    layout: &Layout,
    me: BrickId,
    disk: H::Disk,
) -> Result<Node<H::Disk>, (Ending, H::Disk)>
    ensures starts { IfOk result (IsStarted (views H.Disk.Disk H.Link.Link H.Clock.Clock) layout.now me disk) }
    ensures refuses { IfErr result (λ e. RefusesStore (views H.Disk.Disk H.Link.Link H.Clock.Clock) layout.now me disk e.1 e.0) }
    ensures sound { H.Disk.sound disk → MatchResult result (λ node. H.Disk.sound node.brick.disk) (λ e. H.Disk.sound e.1) }
    ensures sink { IfErr result (λ e. status_of e.0 ≢ 6) }
    ensures done { H.Disk.sound disk → MayStart H.Disk.tells H.Disk.seen layout.now me disk → IfErr result (λ e. IsDone e.0) }
{
    let copied = match layout.copy(alloc) {
        Ok(copied) => copied,
        Err(_) => return Err((Ending::Memory, disk)),
    };
    match Node::start(alloc, copied, me, disk) {
        Ok(node) => Ok(node),
        Err((fault, disk)) => Err((refusal_of(fault), disk)),
    }
}

/// How a store that is not opened ends the program.
fn refusal_of(fault: OpenFault) -> Ending
    ensures { result ≡ refusal_of fault }
{
    match fault {
        OpenFault::Disk => Ending::Disk,
        OpenFault::NotAStore => Ending::NotAStore,
        OpenFault::Worn => Ending::Worn,
        OpenFault::NoMemory => Ending::Memory,
    }
}

/// The port of a brick of a layout. It is not 0.
pub(crate) fn port_of(layout: &Layout, me: BrickId) -> u16
    requires { me.0 < layout.now.bricks }
    ensures value { result ≡ port_of (ports_of layout.now) me }
    ensures some { 0 < result }
{
    layout.port() + me.0
}
