//! The input of a trace: its layout, and then a line of the schedule after another, each of which is run.

ghost use Rattle.std.specs.Prelude.{◌≡◌, ◌≢◌, ◌<◌, IfOk, IfErr, slice_index};
ghost use Rattle.std.specs.Io.KnownBytes.{prepend_known};
ghost use Rattle.fab_io.specs.Ends.{Kept};
ghost use Rattle.trace.specs.TextReport.{IsNew, OpensLayout, IsRefused, Opens, IsRefusal, RunsLine, Turns};

use fab_base::{Bytes, NoMem};
use fab_io::Source;
use layout::Layout;
use lines::{LINE_LIMIT, LineReader, NextLine, content_of};
use replay::{Halt, Head, MOST_LINES, RunResult, is_memory, next, read_head};
use std::alloc::Global;
use trace_runs::{Journal, LineRun, take_line};
use world::World;

/// What stands before a schedule.
#[derive(Drop)]
pub(crate) enum Opening {
    /// A layout. Nothing was run over its disk yet.
    Opened(World),
    /// No layout: what `replay` prints then, without its line feed.
    Refused(String),
}

/// What comes next of a schedule.
#[derive(Drop)]
pub(crate) enum Turn {
    /// A line, as it was read, which was run.
    Ran(Bytes, LineRun),
    /// No line.
    Ended,
    /// What is no line, or one too many: how that ends the run, and what `replay` prints then, without its line feed.
    Refused(RunResult, String),
}

/// The disk of a layout, over which nothing was run yet.
fn new_world(alloc: Global, layout: Layout) -> Result<World, NoMem>
    ensures { IfOk result (IsNew layout) }
{
    World::new(alloc, layout)
}

/// The disk of a layout's text.
fn opening_of(alloc: Global, head: &[u8]) -> Result<Opening, Halt>
    ensures opens { IfOk result (OpensLayout head.now) }
    ensures cause { IfErr result (λ halt. halt ≡ Halt.Memory) }
{
    match Layout::read(alloc, head) {
        Ok(layout) => Ok(Opening::Opened(new_world(alloc, layout)?)),
        Err(fault) => {
            if is_memory(&fault) {
                return Err(Halt::Memory);
            }
            Ok(Opening::Refused(format!(in alloc; "bad layout: {fault}")?))
        }
    }
}

/// An opening without a layout.
fn no_opening(alloc: Global, why: &str) -> Result<Opening, Halt>
    requires { 32 < slice_index why.now 0 }
    ensures refused { IfOk result IsRefused }
    ensures cause { IfErr result (λ halt. halt ≡ Halt.Memory) }
{
    Ok(Opening::Refused(String::from_str(alloc, why)?))
}

/// Reads what stands before the schedule.
pub(crate) fn open<S: Source>(
    alloc: Global,
    source: &mut S,
    unread: &mut LineReader,
) -> Result<Opening, Halt>
    ensures opens { IfOk result (Opens (prepend_known unread.old (S.told source.old)) (prepend_known unread.new (S.told source.new))) }
    ensures kept { Kept (S.faults source.old) (S.faults source.new) (S.sound source.old) (S.sound source.new)
        (result ≡ Err Halt.Source) }
    ensures cause { result ≢ Err Halt.Sink }
{
    match read_head(alloc, source, unread)? {
        Head::Text(text) => opening_of(alloc, text.as_slice()),
        Head::Alone(text) => opening_of(alloc, text.as_slice()),
        Head::TooLong => no_opening(alloc, "bad layout: limit layout"),
        Head::Endless => no_opening(alloc, "bad layout: end"),
    }
}

/// The turn of what is no line, by its number.
fn bad_line(alloc: Global, number: u64) -> Result<Turn, Halt>
    ensures refusal { IfOk result (IsRefusal (RunResult.BadLine number)) }
    ensures cause { IfErr result (λ halt. halt ≡ Halt.Memory) }
{
    let why = format!(in alloc; "bad line {number}")?;
    Ok(Turn::Refused(RunResult::BadLine(number), why))
}

/// The turn of a line too many.
fn too_many_lines(alloc: Global) -> Result<Turn, Halt>
    ensures refusal { IfOk result (IsRefusal RunResult.TooManyLines) }
    ensures cause { IfErr result (λ halt. halt ≡ Halt.Memory) }
{
    let why = String::from_str(alloc, "too many lines")?;
    Ok(Turn::Refused(RunResult::TooManyLines, why))
}

/// Runs a line. The journal notes it.
fn run_line(
    alloc: Global,
    world: &mut World,
    journal: &mut Journal,
    line: Bytes,
    number: u64,
) -> Result<Turn, Halt>
    ensures runs { IfOk result (RunsLine world.old world.new number line) }
    ensures cause { IfErr result (λ halt. halt ≡ Halt.Memory) }
{
    match take_line(alloc, world, journal, content_of(line.as_slice()))? {
        Some(run) => Ok(Turn::Ran(line, run)),
        None => bad_line(alloc, number),
    }
}

/// Runs what comes next after so many lines. The journal notes it.
pub(crate) fn take_turn<S: Source>(
    alloc: Global,
    world: &mut World,
    journal: &mut Journal,
    source: &mut S,
    unread: &mut LineReader,
    count: u64,
) -> Result<Turn, Halt>
    ensures turns { IfOk result (Turns world.old world.new count (prepend_known unread.old (S.told source.old))
        (prepend_known unread.new (S.told source.new))) }
    ensures kept { Kept (S.faults source.old) (S.faults source.new) (S.sound source.old) (S.sound source.new)
        (result ≡ Err Halt.Source) }
    ensures cause { result ≢ Err Halt.Sink }
{
    let piece = next(source, unread, LINE_LIMIT)?;
    if let NextLine::Ended = piece {
        return Ok(Turn::Ended);
    }
    if count >= MOST_LINES {
        return too_many_lines(alloc);
    }
    match piece {
        NextLine::Whole(line) => run_line(alloc, world, journal, line, count + 1),
        NextLine::Last(line) => run_line(alloc, world, journal, line, count + 1),
        NextLine::Long => bad_line(alloc, count + 1),
        NextLine::Ended => Ok(Turn::Ended),
    }
}
