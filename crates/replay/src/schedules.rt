//! A run: the layout, then the lines of the schedule, one after another, and what closes the output.

ghost use Rattle.std.specs.Prelude.{◌≡◌, ◌≢◌, true, false, []};
ghost use Rattle.std.specs.Io.KnownBytes.{IsAtEnd, prepend_known};
ghost use Rattle.fab_io.specs.Ends.{Kept};
ghost use Rattle.layout.specs.Names.{fault_text};
ghost use Rattle.replay.specs.Outputs.{bad_layout};
ghost use Rattle.replay.specs.Turns.{Prints, PrintsRest, PrintsHeaded, PrintsInput};
ghost use Rattle.replay.specs.Readings.{ReadsPart, LinesSoFar, ScheduleSoFar};
ghost use Rattle.replay.specs.Replays.{RunGoesOn, LeavesOpen};

use crate::endings::{Halt, RunResult};
use crate::heads::{Head, read_head};
use crate::turns::{MOST_LINES, close, finish, next, take_last_turn, take_turn};
use fab_io::{Sink, Source};
use layout::{Layout, LayoutFault};
use lines::{LINE_LIMIT, LineReader};
use std::alloc::Global;
use world::World;

/// Runs the lines that are left of the schedule, and writes their texts and what closes the output.
fn run_lines<S: Source, K: Sink>(
    alloc: Global,
    world: &mut World,
    source: &mut S,
    unread: &mut LineReader,
    sink: &mut K,
) -> Result<RunResult, Halt>
    ensures rest { PrintsRest world.old 0 (prepend_known unread.old (S.told source.old)) (K.told sink.old)
        (K.told sink.new) result }
    ensures reads { ReadsPart (LinesSoFar world.old) unread.old (S.told source.old) (S.told source.new) (K.told sink.old)
        (K.told sink.new) (S.came source.new) (source.new ≡ source.old) (result ≡ Err Halt.Source) }
    ensures read { result ≡ Ok RunResult.Whole → IsAtEnd (prepend_known unread.new (S.told source.new)) }
    ensures source { Kept (S.faults source.old) (S.faults source.new) (S.sound source.old) (S.sound source.new)
        (result ≡ Err Halt.Source) }
    ensures sink { Kept (K.faults sink.old) (K.faults sink.new) (K.sound sink.old) (K.sound sink.new)
        (result ≡ Err Halt.Sink) }
{
    for count in 0..MOST_LINES {
        let piece = next(source, unread, LINE_LIMIT)?;
        if let Some(verdict) = take_turn(alloc, world, sink, &piece, count)? {
            return Ok(verdict);
        }
    }
    let more = next(source, unread, LINE_LIMIT)?;
    take_last_turn(alloc, world, sink, &more)
}

/// Closes the output of an input without a layout.
fn refuse_layout<K: Sink>(
    alloc: Global,
    sink: &mut K,
    fault: &LayoutFault,
) -> Result<RunResult, Halt>
    ensures content { Prints (K.told sink.old) (K.told sink.new) (bad_layout (fault_text fault.now)) result }
    ensures kept { Kept (K.faults sink.old) (K.faults sink.new) (K.sound sink.old) (K.sound sink.new)
        (result ≡ Err Halt.Sink) }
    ensures cause { result ≢ Err Halt.Source }
{
    let text = format!(in alloc; "bad layout: {fault}\n")?;
    close(sink, text.as_bytes(), RunResult::BadLayout)
}

/// Whether a layout was not read for want of memory.
pub fn is_memory(fault: &LayoutFault) -> bool
    ensures { result ≡ false → fault.now ≢ LayoutFault.NoMemory }
{
    match fault {
        LayoutFault::NoMemory => true,
        LayoutFault::Toml | LayoutFault::Field { .. } | LayoutFault::Limit { .. } => false,
    }
}

/// Runs what is left of a source over the disk that a layout's text says. Where that stands alone, nothing is left.
fn run_layout<S: Source, K: Sink>(
    alloc: Global,
    head: &[u8],
    is_alone: bool,
    source: &mut S,
    unread: &mut LineReader,
    sink: &mut K,
) -> Result<RunResult, Halt>
    requires { is_alone ≡ true → IsAtEnd (prepend_known unread.old (S.told source.old)) }
    ensures output { PrintsHeaded head.now (prepend_known unread.old (S.told source.old)) (K.told sink.old)
        (K.told sink.new) result }
    ensures reads { ReadsPart (ScheduleSoFar head.now) unread.old (S.told source.old) (S.told source.new) (K.told sink.old)
        (K.told sink.new) (S.came source.new) (source.new ≡ source.old) (result ≡ Err Halt.Source) }
    ensures alone { is_alone ≡ true → (source.new ≡ source.old) × (result ≢ Err Halt.Source) }
    ensures read { result ≡ Ok RunResult.Whole → IsAtEnd (prepend_known unread.new (S.told source.new)) }
    ensures source { Kept (S.faults source.old) (S.faults source.new) (S.sound source.old) (S.sound source.new)
        (result ≡ Err Halt.Source) }
    ensures sink { Kept (K.faults sink.old) (K.faults sink.new) (K.sound sink.old) (K.sound sink.new)
        (result ≡ Err Halt.Sink) }
{
    match Layout::read(alloc, head) {
        Ok(layout) => {
            let mut world = World::new(alloc, layout)?;
            if is_alone {
                return finish(alloc, &world, sink, 0);
            }
            run_lines(alloc, &mut world, source, unread, sink)
        }
        Err(fault) => {
            if is_memory(&fault) {
                return Err(Halt::Memory);
            }
            refuse_layout(alloc, sink, &fault)
        }
    }
}

/// Runs a layout and a schedule from a source, writes the output, and answers how that ended.
pub(crate) fn run<S: Source, K: Sink>(
    alloc: Global,
    source: &mut S,
    sink: &mut K,
) -> Result<RunResult, Halt>
    ensures output { PrintsInput (S.told source.old) (K.told sink.old) (K.told sink.new) result }
    ensures reads { ReadsPart (LeavesOpen RunGoesOn) [] (S.told source.old) (S.told source.new) (K.told sink.old)
        (K.told sink.new) (S.came source.new) (source.new ≡ source.old) (result ≡ Err Halt.Source) }
    ensures read { result ≡ Ok RunResult.Whole → IsAtEnd (S.told source.new) }
    ensures source { Kept (S.faults source.old) (S.faults source.new) (S.sound source.old) (S.sound source.new)
        (result ≡ Err Halt.Source) }
    ensures sink { Kept (K.faults sink.old) (K.faults sink.new) (K.sound sink.old) (K.sound sink.new)
        (result ≡ Err Halt.Sink) }
{
    let mut unread = LineReader::new(alloc);
    match read_head(alloc, source, &mut unread)? {
        Head::Text(text) => run_layout(alloc, text.as_slice(), false, source, &mut unread, sink),
        Head::Alone(text) => run_layout(alloc, text.as_slice(), true, source, &mut unread, sink),
        Head::TooLong => close(
            sink,
            b"bad layout: limit layout\n".as_slice(),
            RunResult::BadLayout,
        ),
        Head::Endless => close(sink, b"bad layout: end\n".as_slice(), RunResult::BadLayout),
    }
}
