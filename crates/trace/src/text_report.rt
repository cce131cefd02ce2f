//! A run as text.

ghost use Rattle.std.specs.Prelude.{◌≡◌, ◌≢◌, [], List, ℕ, Option, Some, IfOk, OnOk, string_bytes};
ghost use Rattle.std.specs.Io.KnownBytes.{prepend_known};
ghost use Rattle.fab_io.specs.Ends.{Kept};
ghost use Rattle.lines.specs.Reading.{ReadsSchedule};
ghost use Rattle.trace.specs.Calls.{EndsAsCalled, IsLeftTo};
ghost use Rattle.trace.specs.Told.{IsTold, IsStepText};
ghost use Rattle.trace.specs.TextReport.{EndsAs, IsSolid, Tells, TellsRest, WritesTold};

use crate::closings::stripe_notes;
use crate::notes::effect_notes;
use crate::pages::Page;
use crate::schedules::{Opening, Turn, open, take_turn};
use fab_base::NoMem;
use fab_io::{Sink, Source};
use lines::{LineReader, content_of};
use messages::Packet;
use replay::{Halt, RunResult, write};
use std::alloc::Global;
use trace_runs::{Journal, LineRun, StripeHistory, Text, histories_of};
use world::World;

/// Adds notes to a page, a note a line.
fn add_notes(page: &mut Page, notes: &Text) -> Result<(), NoMem>
    ensures { OnOk result ((told : List ℕ) → IsTold page.old told → IsTold page.new told) }
{
    for note in notes.whole()?.lines() {
        page.note(note.as_bytes())?;
    }
    Ok(())
}

/// A page with the title of a line: its number and what stands on it.
fn titled_page(alloc: Global, number: u64, content: &[u8]) -> Result<Page, NoMem>
    ensures { IfOk result (λ page. IsTold page []) }
{
    let number = format!(in alloc; "{number} ")?;
    let mut title = Vec::from_slice(alloc, number.as_bytes())?;
    title.extend_from_slice(content)?;
    let mut page = Page::new(alloc);
    page.head(title.as_slice())?;
    Ok(page)
}

/// A line that was run: its number and what stands on it, what `replay` prints for it, and what it did.
fn line_page(
    alloc: Global,
    sent: &[Packet],
    journal: &Journal,
    number: u64,
    content: &[u8],
    run: &LineRun,
) -> Result<Page, NoMem>
    requires { IsStepText run.now.printed }
    ensures { IfOk result (λ page. IsTold page run.now.printed) }
{
    let mut page = titled_page(alloc, number, content)?;
    page.tell(run.printed.as_slice())?;
    let notes = effect_notes(alloc, sent, journal, &run.effects);
    add_notes(&mut page, &notes)?;
    Ok(page)
}

/// Writes a line that was run.
fn tell_line<K: Sink>(
    alloc: Global,
    sent: &[Packet],
    journal: &Journal,
    sink: &mut K,
    number: u64,
    content: &[u8],
    run: &LineRun,
) -> Result<(), Halt>
    requires { IsStepText run.now.printed }
    ensures writes { WritesTold result (K.told sink.old) (K.told sink.new) run.now.printed }
    ensures kept { Kept (K.faults sink.old) (K.faults sink.new) (K.sound sink.old) (K.sound sink.new)
        (result ≡ Err Halt.Sink) }
    ensures cause { result ≢ Err Halt.Source }
{
    let page = line_page(alloc, sent, journal, number, content, run)?;
    write(sink, page.as_slice())
}

/// Adds these notes of a stripe, behind its title.
fn add_stripe(
    alloc: Global,
    page: &mut Page,
    history: &StripeHistory,
    notes: &Text,
) -> Result<(), NoMem>
    ensures { OnOk result ((told : List ℕ) → IsTold page.old told → IsTold page.new told) }
{
    let (group, stripe) = (history.group.0, history.stripe.0);
    let title = format!(in alloc; "stripe {group} {stripe}")?;
    page.head(title.as_bytes())?;
    add_notes(page, notes)
}

/// What a run left of each stripe that an operation named.
fn closing_page(alloc: Global, world: &World, journal: &Journal) -> Result<Page, NoMem>
    ensures { IfOk result (λ page. IsTold page []) }
{
    let histories = histories_of(alloc, world, journal)?;
    let mut page = Page::new(alloc);
    for history in histories.as_slice() {
        let notes = stripe_notes(alloc, world, journal, history);
        add_stripe(alloc, &mut page, history, &notes)?;
    }
    Ok(page)
}

/// Writes what a run left.
fn finish<K: Sink>(
    alloc: Global,
    world: &World,
    journal: &Journal,
    sink: &mut K,
) -> Result<RunResult, Halt>
    ensures writes { WritesTold result (K.told sink.old) (K.told sink.new) [] }
    ensures ends { EndsAs RunResult.Whole result }
    ensures kept { Kept (K.faults sink.old) (K.faults sink.new) (K.sound sink.old) (K.sound sink.new)
        (result ≡ Err Halt.Sink) }
    ensures cause { result ≢ Err Halt.Source }
{
    let page = closing_page(alloc, world, journal)?;
    write(sink, page.as_slice())?;
    Ok(RunResult::Whole)
}

/// Writes why a run ends.
fn refuse<K: Sink>(
    alloc: Global,
    sink: &mut K,
    verdict: RunResult,
    why: &str,
) -> Result<RunResult, Halt>
    requires { IsSolid why.now }
    ensures writes { WritesTold result (K.told sink.old) (K.told sink.new) [] }
    ensures ends { EndsAs verdict result }
    ensures kept { Kept (K.faults sink.old) (K.faults sink.new) (K.sound sink.old) (K.sound sink.new)
        (result ≡ Err Halt.Sink) }
    ensures cause { result ≢ Err Halt.Source }
{
    let mut page = Page::new(alloc);
    page.head(why.as_bytes())?;
    write(sink, page.as_slice())?;
    Ok(verdict)
}

/// Runs the lines that are left of a schedule, and writes what each did and what all left.
fn tell_lines<S: Source, K: Sink>(
    alloc: Global,
    world: &mut World,
    source: &mut S,
    unread: &mut LineReader,
    sink: &mut K,
) -> Result<RunResult, Halt>
    ensures tells { (input : Option (List ℕ)) (head : List ℕ) → ReadsSchedule input (prepend_known unread.old (S.told source.old)) head []
        → TellsRest world.old input head (K.told sink.old) (K.told sink.new) result }
    ensures called { (input : Option (List ℕ)) → IsLeftTo input 0 (prepend_known unread.old (S.told source.old)) → EndsAsCalled input result }
    ensures source { Kept (S.faults source.old) (S.faults source.new) (S.sound source.old) (S.sound source.new)
        (result ≡ Err Halt.Source) }
    ensures sink { Kept (K.faults sink.old) (K.faults sink.new) (K.sound sink.old) (K.sound sink.new)
        (result ≡ Err Halt.Sink) }
{
    let mut journal = Journal::new(alloc);
    for count in 0..u64::MAX {
        match take_turn(alloc, world, &mut journal, source, unread, count)? {
            Turn::Ran(line, line_run) => {
                let content = content_of(line.as_slice());
                let sent = world.sent();
                tell_line(alloc, sent, &journal, sink, count + 1, content, &line_run)?;
            }
            Turn::Ended => return finish(alloc, world, &journal, sink),
            Turn::Refused(verdict, why) => return refuse(alloc, sink, verdict, why.as_str()),
        }
    }
    // No memory holds so many lines.
    Err(Halt::Memory)
}

/// Runs a layout and a schedule from a source, and writes what each line did and what all left.
pub(crate) fn tell<S: Source, K: Sink>(
    alloc: Global,
    source: &mut S,
    sink: &mut K,
) -> Result<RunResult, Halt>
    ensures tells { Tells (S.told source.old) (K.told sink.old) (K.told sink.new) result }
    ensures called { EndsAsCalled (S.told source.old) result }
    ensures source { Kept (S.faults source.old) (S.faults source.new) (S.sound source.old) (S.sound source.new)
        (result ≡ Err Halt.Source) }
    ensures sink { Kept (K.faults sink.old) (K.faults sink.new) (K.sound sink.old) (K.sound sink.new)
        (result ≡ Err Halt.Sink) }
{
    let mut unread = LineReader::new(alloc);
    match open(alloc, source, &mut unread)? {
        Opening::Opened(mut world) => tell_lines(alloc, &mut world, source, &mut unread, sink),
        Opening::Refused(why) => refuse(alloc, sink, RunResult::BadLayout, why.as_str()),
    }
}
