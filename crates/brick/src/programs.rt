//! The program's top call.

ghost use Rattle.std.specs.Prelude.{◌≡◌, ◌⊎◌, Some, None, map, string_bytes};
ghost use Rattle.fab_io.specs.Ends.{Kept};
ghost use Rattle.brick.specs.Bricks.{Works, FailsAt, Ran, Runs, MayRun};
ghost use Rattle.brick.specs.Endings.{IsDone};
ghost use Rattle.brick.specs.Hosts.{host_seen};
ghost use Rattle.brick.specs.Views.{views, streams};
ghost use Rattle.brick_words.specs.Words.{command_of, wanted};

use crate::endings::{Ending, finish};
use crate::formats::format;
use crate::layout_texts::find_layout;
use crate::locals::host_all;
use crate::serves::serve;
use brick_words::{Words, Work, words_of};
use fab_host::Host;
use fab_io::{NO_MEMORY, Sink};
use std::alloc::Global;

/// Runs the program `brick` with these words (its own name left out), and answers its exit status.
///
/// `format LAYOUT DISK ID` makes the empty store of brick ID on a fresh disk. `serve LAYOUT DISK ID TURNS` opens the store of brick ID that a disk
/// holds, and has the brick serve TURNS turns over the link of its port, by a clock, as [`serving::serve`] says. `local LAYOUT PREFIX TURNS` opens the
/// stores that the disks PREFIX.0, PREFIX.1 and so on hold for the bricks of the layout, hosts all of them, each over the link of its port, and runs the
/// commands of standard input over them by TURNS turns, for a client with a link of its own, as [`hosting::host`] says. `nbd LAYOUT PREFIX TCPPORT TURNS`
/// hosts them in the same way, and serves the client of one session at TCPPORT, whose disk is a volume, by TURNS turns, as
/// [`nbd_hosting::serve_session`] says. LAYOUT names a source all of whose text is the layout, DISK the disk; neither begins with `-`, nor does PREFIX.
/// ID, TCPPORT and TURNS are 1 to 20 decimal digits, and TCPPORT is 1 to 65,535.
///
/// | status | when | printed |
/// |---|---|---|
/// | 0 | the store was made; the turns were served; the turns of the commands were used up, or their source was at its end; the session ended | `formatted ID`; `serving ID` before the first turn, and then `ended TURNS malformed X`; the answers of the commands; `nbd disc`, `nbd abort`, `nbd end`, `nbd dropped`, `nbd noexport` or `nbd turns` |
/// | 2 | the words are of no form, or the layout has no brick ID | the usage line |
/// | 3 | the source's text is no layout, or is past 1,048,576 bytes | `bad layout: toml`, `bad layout: field NAME`, `bad layout: limit NAME` |
/// | 5 | the source of the layout failed, or that of the commands or of the session | nothing more |
/// | 6 | the sink failed, or that of the session | some of the text of the status that was due, from its front; where that was `serving ID`, no turn was served; or some of the answers of the commands; nothing where it was the session's |
/// | 7 | no memory was left | nothing more |
/// | 9 | a disk failed | `disk` |
/// | 10 | the host failed: there is no such source, disk, link, session or clock, or the name of a fresh disk is taken; or a link or the clock failed | `host` |
/// | 11 | a disk, of several the first, holds no store of this layout and brick, or one that keeps a list which may not be a group's members | `not a store` |
/// | 12 | a disk's store, of several the first, was opened as often as it can be | `worn` |
///
/// The host is asked for the source and then for the disk, and for `serve` then for the link and for the clock, each once. For `local` it is asked,
/// after the source, for the disk of each brick and then for its link, by number, then for the clock, for the client's link at port 0, which is any
/// free one, and for the source `-`; for `nbd` the same, with the session of TCPPORT in its place. A store is opened before the next of these calls.
/// The host is given back each before the last text is written, at every status. What is told of these things is told of what was
/// opened and what was given back; over a host that tells nothing of what it holds, the clauses do not tie them to its names.
pub fn brick<H: Host, K: Sink>(alloc: Global, words: &[String], host: &mut H, out: &mut K) -> u8
    // Words of no form: the host is asked nothing.
    ensures words { command_of (map string_bytes words.now) ≡ None → host.new ≡ host.old }

    // A failure of the sink comes only where its count of faults rose, and never from a sound one.
    ensures runs { Runs (streams H.Source.Source H.Input.Source H.Output.Sink)
        (views H.Disk.Disk H.Link.Link H.Clock.Clock)
        (host_seen (H.faults host.old) (H.asked host.old) (H.holds host.old)) (host_seen (H.faults host.new) (H.asked host.new) (H.holds host.new))
        (K.told out.old) (K.told out.new) (Kept (K.faults out.old) (K.faults out.new) (K.sound out.old) (K.sound out.new)) result
        (command_of (map string_bytes words.now)) }

    ensures stays { H.sound host.old → H.sound host.new }

    // Over a sound host that holds what the words want, and a sound sink, the work is done, or memory was lacking.
    ensures complete { H.sound host.old → K.sound out.old
        → MayRun H.Source.told H.Disk.tells H.Disk.seen (H.holds host.old) (command_of (map string_bytes words.now)) → (result ≡ 0) ⊎ (result ≡ 7) }
{
    match words_of(alloc, words) {
        Ok(Some(found)) => run(alloc, found, host, out),
        Ok(None) => finish(alloc, out, &Ending::Usage),
        Err(_) => NO_MEMORY,
    }
}

/// Does what these words ask for, and answers the exit status.
fn run<H: Host, K: Sink>(alloc: Global, words: Words<'_>, host: &mut H, out: &mut K) -> u8
    ensures runs { Ran (streams H.Source.Source H.Input.Source H.Output.Sink)
        (views H.Disk.Disk H.Link.Link H.Clock.Clock)
        (host_seen (H.faults host.old) (H.asked host.old) (H.holds host.old)) (host_seen (H.faults host.new) (H.asked host.new) (H.holds host.new))
        (wanted words.entry) (K.told out.old) (K.told out.new)
        (Kept (K.faults out.old) (K.faults out.new) (K.sound out.old) (K.sound out.new)) result }
    ensures stays { H.sound host.old → H.sound host.new }
    ensures complete { H.sound host.old → K.sound out.old
        → MayRun H.Source.told H.Disk.tells H.Disk.seen (H.holds host.old) (Some (wanted words.entry)) → (result ≡ 0) ⊎ (result ≡ 7) }
{
    let ending = work(alloc, words, host, out);
    finish(alloc, out, &ending)
}

/// Does what these words ask for.
fn work<H: Host, K: Sink>(alloc: Global, words: Words<'_>, host: &mut H, out: &mut K) -> Ending
    ensures works { Works (streams H.Source.Source H.Input.Source H.Output.Sink)
        (views H.Disk.Disk H.Link.Link H.Clock.Clock)
        (host_seen (H.faults host.old) (H.asked host.old) (H.holds host.old)) (host_seen (H.faults host.new) (H.asked host.new) (H.holds host.new))
        (wanted words.entry) (K.told out.old) (K.told out.new) result }
    ensures stays { H.sound host.old → H.sound host.new }
    ensures sink { Kept (K.faults out.old) (K.faults out.new) (K.sound out.old) (K.sound out.new) (FailsAt words.entry.work result) }
    ensures done { H.sound host.old → K.sound out.old
        → MayRun H.Source.told H.Disk.tells H.Disk.seen (H.holds host.old) (Some (wanted words.entry)) → IsDone result }
{
    let layout = match find_layout(alloc, host, words.layout) {
        Ok(layout) => layout,
        Err(ending) => return ending,
    };
    match words.work {
        Work::Format { id } => format(alloc, host, words.name, &layout, id),
        Work::Serve { id, turns } => serve(alloc, host, out, words.name, layout, id, turns),
        Work::HostAll { task } => host_all(alloc, host, out, words.name, &layout, task),
    }
}
