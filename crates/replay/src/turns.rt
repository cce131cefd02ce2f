//! One line of a schedule after another: each is run and printed.

ghost use Rattle.std.specs.Prelude.{◌≡◌, ◌≢◌, ◌<◌, IfOk};
ghost use Rattle.std.specs.Io.KnownBytes.{Keeps, prepend_known};
ghost use Rattle.fab_io.specs.Ends.{Kept, WriteTakes};
ghost use Rattle.lines.specs.Lines.{content};
ghost use Rattle.lines.specs.Reading.{Says, LineReads, taken_by};
ghost use Rattle.world.specs.Runs.{world_of};
ghost use Rattle.printed.specs.Outputs.{most_lines};
ghost use Rattle.printed.specs.Spellings.{WorldReads};
ghost use Rattle.replay.specs.Outputs.{finished, bad_line};
ghost use Rattle.replay.specs.Turns.{Prints, LineMeans, LineTurnMeans, PieceMeans, TurnMeans, IsTheEnd};

use crate::endings::{Halt, RunResult};
use crate::texts::closing_text;
use fab_io::{IoFault, Sink, Source};
use lines::{LineReader, NextLine, content_of};
use std::alloc::Global;
use world::{StepFault, World};

/// The most lines of a schedule.
pub const MOST_LINES: u64 = 1_048_576;

/// The next piece of the input: a line of at most so many bytes, or what comes in its place.
///
/// # Errors
///
/// `Source` where the source failed, `Memory` where no memory was left.
pub fn next<S: Source>(
    source: &mut S,
    unread: &mut LineReader,
    limit: usize,
) -> Result<NextLine, Halt>
    ensures says { IfOk result (λ piece. Says limit (prepend_known unread.old (S.told source.old))
        (prepend_known unread.new (S.told source.new)) piece) }
    ensures reads { LineReads limit unread.old unread.new (S.told source.old) (S.told source.new) (S.came source.new)
        (source.new ≡ source.old) (taken_by result) (result ≡ Err Halt.Source) }
    ensures kept { Kept (S.faults source.old) (S.faults source.new) (S.sound source.old) (S.sound source.new)
        (result ≡ Err Halt.Source) }
    ensures cause { result ≢ Err Halt.Sink }
{
    match unread.next_line(source, limit) {
        Ok(piece) => Ok(piece),
        Err(IoFault::Failed) => Err(Halt::Source),
        Err(IoFault::NoMemory) => Err(Halt::Memory),
    }
}

/// Writes a text. An empty one is not written.
///
/// # Errors
///
/// `Sink` where the sink failed, which took some of the text then, from its front; `Memory` where no memory was left, and then it took nothing.
pub fn write<K: Sink>(sink: &mut K, text: &[u8]) -> Result<(), Halt>
    ensures content { WriteTakes (K.told sink.old) (K.told sink.new) result text.now }
    ensures kept { Kept (K.faults sink.old) (K.faults sink.new) (K.sound sink.old) (K.sound sink.new)
        (result ≡ Err Halt.Sink) }
    ensures memory { result ≡ Err Halt.Memory → Keeps (K.told sink.old) (K.told sink.new) }
    ensures cause { result ≢ Err Halt.Source }
{
    if text.is_empty() {
        return Ok(());
    }
    match sink.write(text) {
        Ok(()) => Ok(()),
        Err(IoFault::Failed) => Err(Halt::Sink),
        Err(IoFault::NoMemory) => Err(Halt::Memory),
    }
}

/// Writes what closes the output of a run that ends so.
pub(crate) fn close<K: Sink>(
    sink: &mut K,
    text: &[u8],
    verdict: RunResult,
) -> Result<RunResult, Halt>
    ensures content { Prints (K.told sink.old) (K.told sink.new) (record { text = text.now; verdict = Some verdict }) result }
    ensures kept { Kept (K.faults sink.old) (K.faults sink.new) (K.sound sink.old) (K.sound sink.new)
        (result ≡ Err Halt.Sink) }
    ensures cause { result ≢ Err Halt.Source }
{
    write(sink, text)?;
    Ok(verdict)
}

/// Closes the output of a run all lines of which were run.
pub(crate) fn finish<K: Sink>(
    alloc: Global,
    world: &World,
    sink: &mut K,
    lines: u64,
) -> Result<RunResult, Halt>
    ensures content { Prints (K.told sink.old) (K.told sink.new) (finished world.now.layout (world_of world.now) lines) result }
    ensures told { result ≡ Ok RunResult.Whole → WorldReads (world_of world.now) }
    ensures kept { Kept (K.faults sink.old) (K.faults sink.new) (K.sound sink.old) (K.sound sink.new)
        (result ≡ Err Halt.Sink) }
    ensures cause { result ≢ Err Halt.Source }
{
    let text = closing_text(alloc, world, lines)?;
    close(sink, text.as_bytes(), RunResult::Whole)
}

/// Closes the output at a line that is no line, by its number.
fn refuse_line<K: Sink>(alloc: Global, sink: &mut K, line: u64) -> Result<RunResult, Halt>
    ensures content { Prints (K.told sink.old) (K.told sink.new) (bad_line line) result }
    ensures kept { Kept (K.faults sink.old) (K.faults sink.new) (K.sound sink.old) (K.sound sink.new)
        (result ≡ Err Halt.Sink) }
    ensures cause { result ≢ Err Halt.Source }
{
    let text = format!(in alloc; "bad line {line}\n")?;
    close(sink, text.as_bytes(), RunResult::BadLine(line))
}

/// Runs a line and writes its text, and answers whether it is one.
fn run_line<K: Sink>(world: &mut World, sink: &mut K, content: &[u8]) -> Result<bool, Halt>
    ensures content { LineMeans world.old world.new content.now (K.told sink.old) (K.told sink.new) result }
    ensures kept { Kept (K.faults sink.old) (K.faults sink.new) (K.sound sink.old) (K.sound sink.new)
        (result ≡ Err Halt.Sink) }
    ensures cause { result ≢ Err Halt.Source }
{
    match world.step(content) {
        Ok(text) => {
            write(sink, text.as_slice())?;
            Ok(true)
        }
        Err(StepFault::BadLine) => Ok(false),
        Err(StepFault::NoMemory) => Err(Halt::Memory),
    }
}

/// Runs a line after this many and writes its text, and answers how the run ends, where it does.
fn run_or_refuse<K: Sink>(
    alloc: Global,
    world: &mut World,
    sink: &mut K,
    line: &[u8],
    count: u64,
) -> Result<Option<RunResult>, Halt>
    requires { count < MOST_LINES }
    ensures means { LineTurnMeans world.old world.new count (content line.now) (K.told sink.old) (K.told sink.new) result }
    ensures whole { result ≢ Ok (Some RunResult.Whole) }
    ensures kept { Kept (K.faults sink.old) (K.faults sink.new) (K.sound sink.old) (K.sound sink.new)
        (result ≡ Err Halt.Sink) }
    ensures cause { result ≢ Err Halt.Source }
{
    if run_line(world, sink, content_of(line))? {
        Ok(None)
    } else {
        Ok(Some(refuse_line(alloc, sink, count + 1)?))
    }
}

/// Runs what comes next after this many lines and writes its text, and answers how the run ends, where it does.
pub(crate) fn take_turn<K: Sink>(
    alloc: Global,
    world: &mut World,
    sink: &mut K,
    piece: &NextLine,
    count: u64,
) -> Result<Option<RunResult>, Halt>
    requires { count < MOST_LINES }
    ensures means { TurnMeans world.old world.new count piece.now (K.told sink.old) (K.told sink.new) result }
    ensures whole { result ≡ Ok (Some RunResult.Whole) → IsTheEnd piece.now }
    ensures kept { Kept (K.faults sink.old) (K.faults sink.new) (K.sound sink.old) (K.sound sink.new)
        (result ≡ Err Halt.Sink) }
    ensures cause { result ≢ Err Halt.Source }
{
    match piece {
        NextLine::Whole(line) => run_or_refuse(alloc, world, sink, line.as_slice(), count),
        NextLine::Last(line) => match run_or_refuse(alloc, world, sink, line.as_slice(), count)? {
            None => Ok(Some(finish(alloc, world, sink, count + 1)?)),
            Some(verdict) => Ok(Some(verdict)),
        },
        NextLine::Long => Ok(Some(refuse_line(alloc, sink, count + 1)?)),
        NextLine::Ended => Ok(Some(finish(alloc, world, sink, count)?)),
    }
}

/// Ends a run that has run as many lines as there may be, by what comes next.
pub(crate) fn take_last_turn<K: Sink>(
    alloc: Global,
    world: &World,
    sink: &mut K,
    piece: &NextLine,
) -> Result<RunResult, Halt>
    ensures rest { PieceMeans world.now most_lines piece.now (K.told sink.old) (K.told sink.new) result }
    ensures whole { result ≡ Ok RunResult.Whole → IsTheEnd piece.now }
    ensures kept { Kept (K.faults sink.old) (K.faults sink.new) (K.sound sink.old) (K.sound sink.new)
        (result ≡ Err Halt.Sink) }
    ensures cause { result ≢ Err Halt.Source }
{
    if let NextLine::Ended = piece {
        return finish(alloc, world, sink, MOST_LINES);
    }
    close(
        sink,
        b"too many lines\n".as_slice(),
        RunResult::TooManyLines,
    )
}
