//! The commands of `brick local`, and the session of `brick nbd`.

ghost use Rattle.std.specs.Prelude.{◌≡◌, ◌≢◌};
ghost use Rattle.std.specs.List.{AllByRecursion};
ghost use Rattle.fab_io.specs.Ends.{Kept};
ghost use Rattle.hosting.specs.Hosted.{IsSound, AreSound};
ghost use Rattle.brick.specs.Endings.{status_of, IsDone};
ghost use Rattle.brick.specs.Hosts.{host_seen, Told, Has, KnowsStill};
ghost use Rattle.brick.specs.Locals.{ending_by, AreSame, AreRunning, KeepsHosted, FailsOut, RunsCommands, RunsSession, HostsBySource, HostsBySession, DoesTask, HostsByClock, HasCommands, HasSession, HasTask, HasEnds};
ghost use Rattle.brick.specs.Views.{views, session_of, session_view, streams};

use crate::endings::Ending;
use brick_words::Task;
use fab_disk::Disk;
use fab_host::{Connection, Host};
use fab_io::{Clock, Link, Sink, Source};
use hosting::{HostFault, HostedBricks, TimedBricks};
use layout::Layout;
use nbd_hosting::serve_session;
use std::alloc::Global;

/// The port of the client's link: any free one.
const CLIENT_PORT: u16 = 0;

/// The name of the source of the commands.
const STANDARD_INPUT: &str = "-";

/// Does a task with the bricks by the clock, for a client with a link of its own, gives back the link and the clock, and hands the bricks back.
pub(crate) fn run_by_clock<H: Host, K: Sink>(
    alloc: Global,
    host: &mut H,
    out: &mut K,
    layout: &Layout,
    task: Task,
    bricks: HostedBricks<H::Disk, H::Link>,
) -> (HostedBricks<H::Disk, H::Link>, Ending)
    requires { bricks.room ≡ layout.now.bricks }
    ensures hosts { HostsByClock (streams H.Source.Source H.Input.Source H.Output.Sink) (views H.Disk.Disk H.Link.Link H.Clock.Clock) layout.now task
        (host_seen (H.faults host.old) (H.asked host.old) (H.holds host.old)) (host_seen (H.faults host.new) (H.asked host.new) (H.holds host.new))
        bricks.bricks result.0.bricks (K.told out.old) (K.told out.new) result.1 }
    ensures same { AreSame bricks.bricks result.0.bricks }
    ensures runs_still { AreRunning bricks.bricks → result.1 ≢ Ending.Disk → AreRunning result.0.bricks }
    ensures knows { Told (H.holds host.old) (H.holds host.new) KnowsStill }
    ensures stays { H.sound host.old → AllByRecursion (IsSound H.Disk.Disk H.Link.Link H.Clock.Clock) bricks.bricks
        → H.sound host.new × AllByRecursion (IsSound H.Disk.Disk H.Link.Link H.Clock.Clock) result.0.bricks }
    ensures sink { Kept (K.faults out.old) (K.faults out.new) (K.sound out.old) (K.sound out.new) (FailsOut task result.1) }
    ensures done { H.sound host.old → AllByRecursion (IsSound H.Disk.Disk H.Link.Link H.Clock.Clock) bricks.bricks → K.sound out.old
        → Has (H.holds host.old) (HasEnds task) → IsDone result.1 }
{
    let clock = match host.clock() {
        Ok(clock) => clock,
        Err(fault) => return (bricks, Ending::refusal(fault)),
    };
    let link = match host.link(CLIENT_PORT) {
        Ok(link) => link,
        Err(fault) => {
            host.keep_clock(clock);
            return (bricks, Ending::refusal(fault));
        }
    };
    let timed = TimedBricks { bricks, clock };
    let (timed, link, ending) = run_task(alloc, host, out, layout, task, timed, link);
    host.keep_link(CLIENT_PORT, link);
    let TimedBricks { bricks, clock } = timed;
    host.keep_clock(clock);
    (bricks, ending)
}

/// Does a task with the bricks, over the client's link, and hands them back.
fn run_task<H: Host, K: Sink>(
    alloc: Global,
    host: &mut H,
    out: &mut K,
    layout: &Layout,
    task: Task,
    bricks: TimedBricks<H::Disk, H::Link, H::Clock>,
    link: H::Link,
) -> (TimedBricks<H::Disk, H::Link, H::Clock>, H::Link, Ending)
    ensures hosts { DoesTask (streams H.Source.Source H.Input.Source H.Output.Sink) (views H.Disk.Disk H.Link.Link H.Clock.Clock) layout.now task
        (host_seen (H.faults host.old) (H.asked host.old) (H.holds host.old)) (host_seen (H.faults host.new) (H.asked host.new) (H.holds host.new))
        bricks result.0 link result.1 (K.told out.old) (K.told out.new) result.2 }
    ensures keeps { KeepsHosted H.Disk.Disk H.Link.Link H.Clock.Clock bricks result.0 link result.1 result.2 }
    ensures knows { Told (H.holds host.old) (H.holds host.new) KnowsStill }
    ensures stays { H.sound host.old → H.sound host.new }
    ensures sink { Kept (K.faults out.old) (K.faults out.new) (K.sound out.old) (K.sound out.new) (FailsOut task result.2) }
    ensures done { H.sound host.old → AreSound H.Disk.Disk H.Link.Link H.Clock.Clock bricks.bricks.bricks bricks.clock → H.Link.sound link
        → K.sound out.old → Has (H.holds host.old) (HasTask task) → IsDone result.2 }
{
    match task {
        Task::Commands { turns } => run_by_source(alloc, host, out, layout, turns, bricks, link),
        Task::Session { port, turns } => {
            run_by_session(alloc, host, layout, port, turns, bricks, link)
        }
    }
}

/// Runs the commands of standard input over the bricks, gives that back, and hands the bricks and the link back.
fn run_by_source<H: Host, K: Sink>(
    alloc: Global,
    host: &mut H,
    out: &mut K,
    layout: &Layout,
    turns: u64,
    bricks: TimedBricks<H::Disk, H::Link, H::Clock>,
    link: H::Link,
) -> (TimedBricks<H::Disk, H::Link, H::Clock>, H::Link, Ending)
    ensures hosts { HostsBySource (streams H.Source.Source H.Input.Source H.Output.Sink) (views H.Disk.Disk H.Link.Link H.Clock.Clock) layout.now turns
        (host_seen (H.faults host.old) (H.asked host.old) (H.holds host.old)) (host_seen (H.faults host.new) (H.asked host.new) (H.holds host.new))
        bricks result.0 link result.1 (K.told out.old) (K.told out.new) result.2 }
    ensures keeps { KeepsHosted H.Disk.Disk H.Link.Link H.Clock.Clock bricks result.0 link result.1 result.2 }
    ensures knows { Told (H.holds host.old) (H.holds host.new) KnowsStill }
    ensures stays { H.sound host.old → H.sound host.new }
    ensures sink { Kept (K.faults out.old) (K.faults out.new) (K.sound out.old) (K.sound out.new) (status_of result.2 ≡ 6) }
    ensures done { H.sound host.old → AreSound H.Disk.Disk H.Link.Link H.Clock.Clock bricks.bricks.bricks bricks.clock → H.Link.sound link
        → K.sound out.old → Has (H.holds host.old) HasCommands → IsDone result.2 }
{
    let mut source = match host.source(STANDARD_INPUT) {
        Ok(source) => source,
        Err(fault) => return (bricks, link, Ending::refusal(fault)),
    };
    let (bricks, link, ending) = run(alloc, out, layout, turns, bricks, link, &mut source);
    host.keep_source(STANDARD_INPUT, source);
    (bricks, link, ending)
}

/// Serves the client of the session at a port over the bricks, gives the session back, and hands the bricks and the link back.
fn run_by_session<H: Host>(
    alloc: Global,
    host: &mut H,
    layout: &Layout,
    port: u16,
    turns: u64,
    bricks: TimedBricks<H::Disk, H::Link, H::Clock>,
    link: H::Link,
) -> (TimedBricks<H::Disk, H::Link, H::Clock>, H::Link, Ending)
    ensures hosts { HostsBySession (session_view H.Input.Source H.Output.Sink) (views H.Disk.Disk H.Link.Link H.Clock.Clock) layout.now port turns
        (host_seen (H.faults host.old) (H.asked host.old) (H.holds host.old)) (host_seen (H.faults host.new) (H.asked host.new) (H.holds host.new))
        bricks result.0 link result.1 result.2 }
    ensures keeps { KeepsHosted H.Disk.Disk H.Link.Link H.Clock.Clock bricks result.0 link result.1 result.2 }
    ensures knows { Told (H.holds host.old) (H.holds host.new) KnowsStill }
    ensures stays { H.sound host.old → H.sound host.new }
    ensures done { H.sound host.old → AreSound H.Disk.Disk H.Link.Link H.Clock.Clock bricks.bricks.bricks bricks.clock → H.Link.sound link
        → Has (H.holds host.old) (HasSession port) → IsDone result.2 }
{
    let session = match host.session(port) {
        Ok(session) => session,
        Err(fault) => return (bricks, link, Ending::refusal(fault)),
    };
    let Connection {
        mut source,
        mut sink,
    } = session;
    let (bricks, link, ending) = serve(alloc, layout, turns, bricks, link, &mut source, &mut sink);
    host.keep_session(port, source, sink);
    (bricks, link, ending)
}

/// Runs the commands of a source over the bricks, and hands the bricks and the link back.
fn run<D: Disk, L: Link, C: Clock, S: Source, K: Sink>(
    alloc: Global,
    out: &mut K,
    layout: &Layout,
    turns: u64,
    bricks: TimedBricks<D, L, C>,
    link: L,
    source: &mut S,
) -> (TimedBricks<D, L, C>, L, Ending)
    ensures runs { RunsCommands S.told S.faults (views D.Disk L.Link C.Clock) layout.now turns bricks result.0 link result.1
        source.old source.new (K.told out.old) (K.told out.new) result.2 }
    ensures keeps { KeepsHosted D.Disk L.Link C.Clock bricks result.0 link result.1 result.2 }
    ensures source { S.sound source.old → S.sound source.new }
    ensures sink { Kept (K.faults out.old) (K.faults out.new) (K.sound out.old) (K.sound out.new) (status_of result.2 ≡ 6) }
    ensures done { AreSound D.Disk L.Link C.Clock bricks.bricks.bricks bricks.clock → L.sound link → S.sound source.old → K.sound out.old
        → IsDone result.2 }
{
    let (bricks, link, ended) = hosting::host(alloc, layout, bricks, link, source, out, turns);
    match ended {
        Ok(()) => (bricks, link, Ending::Commanded),
        Err(fault) => (bricks, link, ending_by(fault)),
    }
}

/// Serves the client of a session over the bricks, and hands the bricks and the link back.
fn serve<D: Disk, L: Link, C: Clock, I: Source, O: Sink>(
    alloc: Global,
    layout: &Layout,
    turns: u64,
    bricks: TimedBricks<D, L, C>,
    link: L,
    source: &mut I,
    sink: &mut O,
) -> (TimedBricks<D, L, C>, L, Ending)
    ensures runs { RunsSession (session_view I.Source O.Sink) (views D.Disk L.Link C.Clock) layout.now turns bricks result.0 link result.1
        (session_of source.old sink.old) (session_of source.new sink.new) result.2 }
    ensures keeps { KeepsHosted D.Disk L.Link C.Clock bricks result.0 link result.1 result.2 }
    ensures source { I.sound source.old → I.sound source.new }
    ensures sink { O.sound sink.old → O.sound sink.new }
    ensures done { AreSound D.Disk L.Link C.Clock bricks.bricks.bricks bricks.clock → L.sound link → I.sound source.old → O.sound sink.old
        → IsDone result.2 }
{
    let (bricks, link, ended) = serve_session(alloc, layout, bricks, link, source, sink, turns);
    match ended {
        Ok(end) => (bricks, link, Ending::Served(end)),
        Err(fault) => (bricks, link, ending_by(fault)),
    }
}

/// How a fault of a run of commands, or of a session, ends the program.
fn ending_by(fault: HostFault) -> Ending
    ensures { result ≡ ending_by fault }
{
    match fault {
        HostFault::Disk => Ending::Disk,
        HostFault::Link | HostFault::ClientLink | HostFault::Clock => Ending::Host,
        HostFault::Source => Ending::Source,
        HostFault::Sink => Ending::Sink,
        HostFault::NoMemory => Ending::Memory,
    }
}
