//! `brick local` and `brick nbd`.

ghost use Rattle.std.specs.Prelude.{◌≡◌, ◌≢◌, ◌<◌, ◌+◌, [], ◌∷◌, ◌++◌, Some, false, length, IfOk, string_bytes};
ghost use Rattle.std.specs.List.{AllByRecursion};
ghost use Rattle.fab_io.specs.Ends.{Kept};
ghost use Rattle.hosting.specs.Hosted.{Hosted, Begins, TakesLast, IsSound};
ghost use Rattle.brick.specs.Endings.{IsDone};
ghost use Rattle.brick.specs.Hosts.{host_seen, Told, Has, KnowsStill};
ghost use Rattle.brick.specs.Locals.{disk_name, AreSame, AreRunning, FailsOut, HostsFrom, HostsLayout, HasBricks};
ghost use Rattle.brick.specs.Views.{views, streams};

use crate::commands::run_by_clock;
use crate::endings::Ending;
use crate::openings::{Equipment, give_back, open_brick, port_of};
use brick_words::Task;
use fab_base::BrickId;
use fab_disk::Disk;
use fab_host::Host;
use fab_io::{Link, Sink};
use hosting::HostedBricks;
use layout::Layout;
use node::Node;
use std::alloc::{AllocError, Global};

/// Hosts all bricks of a layout, over disks whose names begin with this prefix, does a task with them, and gives back to the host what it opened.
pub(crate) fn host_all<H: Host, K: Sink>(
    alloc: Global,
    host: &mut H,
    out: &mut K,
    prefix: &str,
    layout: &Layout,
    task: Task,
) -> Ending
    ensures hosts { HostsLayout (streams H.Source.Source H.Input.Source H.Output.Sink) (views H.Disk.Disk H.Link.Link H.Clock.Clock) layout.now prefix.now task
        (host_seen (H.faults host.old) (H.asked host.old) (H.holds host.old)) (host_seen (H.faults host.new) (H.asked host.new) (H.holds host.new))
        (K.told out.old) (K.told out.new) result }
    ensures stays { H.sound host.old → H.sound host.new }
    ensures sink { Kept (K.faults out.old) (K.faults out.new) (K.sound out.old) (K.sound out.new) (FailsOut task result) }
    ensures done { H.sound host.old → K.sound out.old
        → Has (H.holds host.old) (HasBricks H.Disk.tells H.Disk.seen layout.now prefix.now task 0) → IsDone result }
{
    let bricks = match HostedBricks::new(alloc, usize::from(layout.bricks())) {
        Ok(bricks) => bricks,
        Err(_) => return Ending::Memory,
    };
    let (_bricks, ending) = host_bricks(alloc, host, out, prefix, layout, task, 0, bricks);
    ending
}

/// The name of the disk of the brick of this number.
fn disk_name(alloc: Global, prefix: &str, id: u16) -> Result<String, AllocError>
    ensures { IfOk result (λ name. string_bytes name ≡ disk_name prefix.now (record { 0 = id })) }
{
    Ok(format!(in alloc; "{prefix}.{id}")?)
}

/// Hosts the bricks from this number on, beside those that were started, and past the last one does the task. It gives back to the host what it
/// opened, and hands back the bricks that were started, as they are then.
///
/// It calls itself, since each disk is given back by its name: to make that again might find no memory.
fn host_bricks<H: Host, K: Sink>(
    alloc: Global,
    host: &mut H,
    out: &mut K,
    prefix: &str,
    layout: &Layout,
    task: Task,
    id: u16,
    bricks: HostedBricks<H::Disk, H::Link>,
) -> (HostedBricks<H::Disk, H::Link>, Ending)
    requires count { length bricks.bricks ≡ id }
    requires room { bricks.room ≡ layout.now.bricks }
    requires running { AreRunning bricks.bricks }
    ensures hosts { HostsFrom (streams H.Source.Source H.Input.Source H.Output.Sink) (views H.Disk.Disk H.Link.Link H.Clock.Clock) layout.now prefix.now task
        (K.told out.old) (K.told out.new) result.1 id bricks.bricks result.0.bricks
        (host_seen (H.faults host.old) (H.asked host.old) (H.holds host.old)) (host_seen (H.faults host.new) (H.asked host.new) (H.holds host.new)) }
    ensures same { AreSame bricks.bricks result.0.bricks }
    ensures runs_still { result.1 ≢ Ending.Disk → AreRunning result.0.bricks }
    ensures knows { Told (H.holds host.old) (H.holds host.new) KnowsStill }
    ensures stays { H.sound host.old → AllByRecursion (IsSound H.Disk.Disk H.Link.Link H.Clock.Clock) bricks.bricks
        → H.sound host.new × AllByRecursion (IsSound H.Disk.Disk H.Link.Link H.Clock.Clock) result.0.bricks }
    ensures sink { Kept (K.faults out.old) (K.faults out.new) (K.sound out.old) (K.sound out.new) (FailsOut task result.1) }
    ensures done { H.sound host.old → AllByRecursion (IsSound H.Disk.Disk H.Link.Link H.Clock.Clock) bricks.bricks → K.sound out.old
        → Has (H.holds host.old) (HasBricks H.Disk.tells H.Disk.seen layout.now prefix.now task id) → IsDone result.1 }
{
    if id >= layout.bricks() {
        return run_by_clock(alloc, host, out, layout, task, bricks);
    }
    let me = BrickId(id);
    let port = port_of(layout, me);
    let name = match disk_name(alloc, prefix, id) {
        Ok(name) => name,
        // A name without memory is told as a disk that was refused for that.
        Err(_) => return (bricks, Ending::Memory),
    };
    let name = name.as_str();
    let (node, link) = match open_brick(alloc, host, name, layout, me) {
        Ok(opened) => opened,
        Err((opened, ending)) => {
            give_back(host, name, port, opened);
            return (bricks, ending);
        }
    };
    let bricks = with_brick(bricks, node, link);
    let (bricks, ending) = host_bricks(alloc, host, out, prefix, layout, task, id + 1, bricks);
    let (bricks, node, link) = without_last(bricks);
    let equipment = Equipment::Linked(node.into_disk(), link);
    give_back(host, name, port, equipment);
    (bricks, ending)
}

/// Puts a brick behind these. There is room for it.
fn with_brick<D: Disk, L: Link>(
    bricks: HostedBricks<D, L>,
    node: Node<D>,
    link: L,
) -> HostedBricks<D, L>
    requires room { length bricks.bricks < bricks.room }
    requires running { AreRunning bricks.bricks }
    requires runs { node.brick.halted ≡ false }
    ensures more { (brick : Hosted D L) × (result.bricks ≡ bricks.bricks ++ brick ∷ []) × Begins brick node link }
    ensures count { length result.bricks ≡ length bricks.bricks + 1 }
    ensures room { result.room ≡ bricks.room }
    ensures running { AreRunning result.bricks }
{
    let mut bricks = bricks;
    bricks.add(node, link);
    bricks
}

/// Takes the last of these bricks away. There is one.
fn without_last<D: Disk, L: Link>(bricks: HostedBricks<D, L>) -> (HostedBricks<D, L>, Node<D>, L)
    requires { 0 < length bricks.bricks }
    ensures { TakesLast bricks.bricks result.0.bricks (Some (result.1, result.2)) }
{
    let mut bricks = bricks;
    match bricks.pop() {
        Some((node, link)) => (bricks, node, link),
        None => unreachable!(),
    }
}
