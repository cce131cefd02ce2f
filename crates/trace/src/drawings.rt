//! A run as a picture.

ghost use Rattle.std.specs.Prelude.{◌≡◌, ◌≢◌, List, ℕ, Option, IfOk};
ghost use Rattle.std.specs.Io.KnownBytes.{prepend_known};
ghost use Rattle.fab_io.specs.Ends.{Kept};
ghost use Rattle.trace.specs.Calls.{CallsFor, EndsAsCalled, IsLeftTo};
ghost use Rattle.trace.specs.Words.{AreKept};

use crate::schedules::{Opening, Turn, open, take_turn};
use fab_io::{Sink, Source};
use lines::{LineReader, content_of};
use replay::{Halt, RunResult, write};
use std::alloc::Global;
use trace_pictures::Drawing;
use trace_runs::{Journal, Text, histories_of};
use world::World;

/// The most lines that are drawn.
const MOST_DRAWN: u64 = 2_000;

/// What came of an input that was to be drawn.
#[derive(Drop)]
struct Outcome {
    /// How the run ended.
    verdict: RunResult,
    /// The picture. Empty where nothing is drawn.
    picture: Text,
    /// Why nothing is drawn, or not all lines. Empty where they are.
    notice: Text,
}

/// A picture of all lines, or of the first of so many.
fn drawn(alloc: Global, picture: Text, lines: u64) -> Outcome
    ensures { result.verdict ≡ RunResult.Whole }
{
    let mut notice = Text::new(alloc);
    if lines > MOST_DRAWN {
        let numbers = [MOST_DRAWN, lines];
        notice.fill("the first % of % lines are drawn\n", &numbers);
    }
    Outcome {
        verdict: RunResult::Whole,
        picture,
        notice,
    }
}

/// No picture: how that ends the run, and what `replay` prints then, without its line feed.
fn refused(alloc: Global, verdict: RunResult, why: &str) -> Outcome
    ensures { result.verdict ≡ verdict }
{
    let mut notice = Text::new(alloc);
    notice.put(why);
    notice.put("\n");
    Outcome {
        verdict,
        picture: Text::new(alloc),
        notice,
    }
}

/// Runs the lines of a schedule over this disk, and draws them.
fn draw_lines<S: Source>(
    alloc: Global,
    world: &mut World,
    source: &mut S,
    unread: &mut LineReader,
) -> Result<Outcome, Halt>
    ensures called { (input : Option (List ℕ)) → IsLeftTo input 0 (prepend_known unread.old (S.told source.old))
        → IfOk result (λ outcome. CallsFor input outcome.verdict) }
    ensures ran { IfOk result (λ outcome. outcome.verdict ≢ RunResult.Refuted) }
    ensures kept { Kept (S.faults source.old) (S.faults source.new) (S.sound source.old) (S.sound source.new)
        (result ≡ Err Halt.Source) }
    ensures cause { result ≢ Err Halt.Sink }
{
    let mut journal = Journal::new(alloc);
    let mut drawing = Drawing::new(alloc);
    for count in 0..u64::MAX {
        match take_turn(alloc, world, &mut journal, source, unread, count)? {
            Turn::Ran(line, run) => {
                if count < MOST_DRAWN && run.effects.is_event {
                    let content = content_of(line.as_slice());
                    drawing.add(world, count + 1, content, &run.effects);
                }
            }
            Turn::Ended => {
                let histories = histories_of(alloc, world, &journal)?;
                let picture = drawing.finish(world, &journal, histories.as_slice());
                return Ok(drawn(alloc, picture, count));
            }
            Turn::Refused(verdict, why) => return Ok(refused(alloc, verdict, why.as_str())),
        }
    }
    // No memory holds so many lines.
    Err(Halt::Memory)
}

/// Runs a layout and a schedule from a source, and draws them.
fn draw_source<S: Source>(alloc: Global, source: &mut S) -> Result<Outcome, Halt>
    ensures called { IfOk result (λ outcome. CallsFor (S.told source.old) outcome.verdict) }
    ensures ran { IfOk result (λ outcome. outcome.verdict ≢ RunResult.Refuted) }
    ensures kept { Kept (S.faults source.old) (S.faults source.new) (S.sound source.old) (S.sound source.new)
        (result ≡ Err Halt.Source) }
    ensures cause { result ≢ Err Halt.Sink }
{
    let mut unread = LineReader::new(alloc);
    match open(alloc, source, &mut unread)? {
        Opening::Opened(mut world) => draw_lines(alloc, &mut world, source, &mut unread),
        Opening::Refused(why) => Ok(refused(alloc, RunResult::BadLayout, why.as_str())),
    }
}

/// Writes a text that was made.
fn say<K: Sink>(sink: &mut K, text: &Text) -> Result<(), Halt>
    ensures kept { Kept (K.faults sink.old) (K.faults sink.new) (K.sound sink.old) (K.sound sink.new)
        (result ≡ Err Halt.Sink) }
    ensures cause { result ≢ Err Halt.Source }
{
    write(sink, text.whole()?.as_bytes())
}

/// Writes the picture of a run of all lines. Of another one there is none.
fn show<K: Sink>(sink: &mut K, outcome: &Outcome) -> Result<(), Halt>
    ensures undrawn { outcome.now.verdict ≢ RunResult.Whole → K.told sink.new ≡ K.told sink.old }
    ensures kept { Kept (K.faults sink.old) (K.faults sink.new) (K.sound sink.old) (K.sound sink.new)
        (result ≡ Err Halt.Sink) }
    ensures cause { result ≢ Err Halt.Source }
{
    match outcome.verdict {
        RunResult::Whole => say(sink, &outcome.picture),
        _ => Ok(()),
    }
}

/// Runs a layout and a schedule from a source, and writes its picture. Why there is none, or not of all lines, is written to `errors`.
pub(crate) fn draw<S: Source, K: Sink, E: Sink>(
    alloc: Global,
    source: &mut S,
    sink: &mut K,
    errors: &mut E,
) -> Result<RunResult, Halt>
    ensures called { EndsAsCalled (S.told source.old) result }
    ensures undrawn { IfOk result (λ verdict. verdict ≢ RunResult.Whole → K.told sink.new ≡ K.told sink.old) }
    ensures ran { IfOk result (λ verdict. verdict ≢ RunResult.Refuted) }
    ensures source { Kept (S.faults source.old) (S.faults source.new) (S.sound source.old) (S.sound source.new)
        (result ≡ Err Halt.Source) }
    ensures sinks { AreKept (K.faults sink.old) (K.faults sink.new) (E.faults errors.old) (E.faults errors.new)
        (K.sound sink.old) (K.sound sink.new) (E.sound errors.old) (E.sound errors.new) (result ≡ Err Halt.Sink) }
{
    let outcome = draw_source(alloc, source)?;
    show(sink, &outcome)?;
    say(errors, &outcome.notice)?;
    Ok(outcome.verdict)
}
