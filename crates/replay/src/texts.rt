//! The texts that close an output.

ghost use Rattle.std.specs.Prelude.{◌≡◌, ◌++◌, IfOk, codes, count_by, string_bytes};
ghost use Rattle.fab_base.specs.Layouts.{group_of, most_groups};
ghost use Rattle.world.specs.Runs.{world_of};
ghost use Rattle.world.specs.Walks.{AreEntriesOf};
ghost use Rattle.transcript.specs.Kinds.{is_begin, is_answered, is_aborted, is_crash};
ghost use Rattle.printed.specs.Outputs.{happened_text, stripes_text, stripes_of, groups_text, count_text, closing_text};
ghost use Rattle.printed.specs.Spellings.{cause_told, ToldReads, AllToldRead, WorldReads};

use crate::spellings::look_at_reports;
use fab_base::{Answer, Cause, GroupId, NoMem, StripeNo};
use reg_model::{Happening, Mark};
use std::alloc::Global;
use world::{StripeEntries, World};

/// The most groups of a layout.
const MOST_GROUPS: u32 = 64;

/// Whether a mark is an End that is no abort.
fn is_answer(mark: &Mark) -> bool
    ensures { result ≡ is_answered mark.now }
{
    match mark {
        Mark::End { answer, .. } => match answer {
            Answer::Data(_) | Answer::Done => true,
            Answer::Aborted(_) => false,
        },
        Mark::Begin { .. } | Mark::Crash { .. } => false,
    }
}

/// Why a mark says that its operation was aborted, if it says so.
fn cause_of(mark: &Mark) -> Option<Cause>
    ensures { result ≡ cause_told mark.now }
{
    match mark {
        Mark::End { answer, .. } => match answer {
            Answer::Aborted(cause) => Some(*cause),
            Answer::Data(_) | Answer::Done => None,
        },
        Mark::Begin { .. } | Mark::Crash { .. } => None,
    }
}

/// Whether a mark is the End of an aborted operation. The numbers of its cause are those of their types.
#[tactic(auto, using(crate::proofs::CountedMarks::aborted_tells))]
fn is_abort(mark: &Mark) -> bool
    ensures is { result ≡ is_aborted mark.now }
    ensures told { ToldReads mark.now }
{
    cause_of(mark).is_some()
}

/// How many operations began.
fn count_begun(marks: &[Mark]) -> usize
    ensures { result ≡ count_by is_begin marks.now }
{
    marks
        .iter()
        .filter(|mark| matches!(mark, Mark::Begin { .. }))
        .count()
}

/// How many operations were answered.
fn count_answered(marks: &[Mark]) -> usize
    ensures { result ≡ count_by is_answered marks.now }
{
    marks.iter().filter(|mark| is_answer(mark)).count()
}

/// How many operations were aborted.
fn count_aborted(marks: &[Mark]) -> usize
    ensures count { result ≡ count_by is_aborted marks.now }
    ensures told { AllToldRead marks.now }
{
    let mut count = 0;
    for mark in marks {
        if is_abort(mark) {
            count += 1;
        }
    }
    count
}

/// How many bricks crashed.
fn count_crashes(marks: &[Mark]) -> usize
    ensures { result ≡ count_by is_crash marks.now }
{
    marks
        .iter()
        .filter(|mark| matches!(mark, Mark::Crash { .. }))
        .count()
}

/// The line of a stripe's happenings; no text where there are none.
fn happened_text(
    alloc: Global,
    group: GroupId,
    stripe: StripeNo,
    happenings: &[Happening],
) -> Result<String, NoMem>
    ensures { IfOk result (λ text. string_bytes text ≡ happened_text group.0 stripe.0 happenings.now) }
{
    if happenings.is_empty() {
        return Ok(String::new(alloc));
    }
    let group = group.0;
    let stripe = stripe.0;
    let mut text = format!(in alloc; "happened {group} {stripe}")?;
    for happening in happenings {
        let operation = happening.operation;
        let position = happening.position;
        let one = format!(in alloc; " {operation}@{position}")?;
        text.push_str(one.as_str())?;
    }
    text.push_str("\n")?;
    Ok(text)
}

/// The lines of a group's stripes. Those of which no operation was are passed over.
fn stripes_text(
    alloc: Global,
    world: &World,
    entries: &StripeEntries,
    group: GroupId,
    stripes: u32,
) -> Result<String, NoMem>
    requires { AreEntriesOf entries.now (world_of world.now) }
    ensures { IfOk result (λ text. string_bytes text ≡ stripes_text (world_of world.now) group.0 stripes) }
{
    let mut text = String::new(alloc);
    let mut next = 0;
    while let Some(stripe) = world.next_stripe(entries, group, next, stripes) {
        let happenings = world.happenings_among(entries, group, stripe)?;
        let line = happened_text(alloc, group, stripe, happenings.as_slice())?;
        text.push_str(line.as_str())?;
        next = stripe.0 + 1;
    }
    Ok(text)
}

/// The lines of the stripes of the group of this number, if there is one.
fn group_text(
    alloc: Global,
    world: &World,
    entries: &StripeEntries,
    group: GroupId,
) -> Result<String, NoMem>
    requires { AreEntriesOf entries.now (world_of world.now) }
    ensures { IfOk result (λ text. string_bytes text
        ≡ stripes_text (world_of world.now) group.0 (stripes_of (group_of world.now.layout group.0))) }
{
    match world.layout().group(group) {
        Some(found) => stripes_text(alloc, world, entries, group, found.stripes()),
        None => Ok(String::new(alloc)),
    }
}

/// The lines of all stripes' happenings, by group and stripe.
#[tactic(auto, using(crate::proofs::StripeTexts::groups_rules))]
fn groups_text(alloc: Global, world: &World) -> Result<String, NoMem>
    ensures { IfOk result (λ text. string_bytes text ≡ groups_text world.now.layout (world_of world.now) most_groups) }
{
    let entries = world.stripe_entries()?;
    let mut text = String::new(alloc);
    for number in 0..MOST_GROUPS {
        let lines = group_text(alloc, world, &entries, GroupId(number))?;
        text.push_str(lines.as_str())?;
    }
    Ok(text)
}

/// The last line of an output.
pub(crate) fn count_text(alloc: Global, lines: u64, marks: &[Mark]) -> Result<String, NoMem>
    ensures text { IfOk result (λ text. string_bytes text ≡ count_text lines marks.now) }
    ensures told { AllToldRead marks.now }
{
    let begun = count_begun(marks);
    let answered = count_answered(marks);
    let aborted = count_aborted(marks);
    let crashes = count_crashes(marks);
    Ok(format!(in alloc;
        "count lines {lines} begun {begun} answered {answered} aborted {aborted} crashes {crashes}\n"
    )?)
}

/// What closes the output after this many lines. What the marks that it counts tell has a spelling, and so has what bricks reported.
pub(crate) fn closing_text(alloc: Global, world: &World, lines: u64) -> Result<String, NoMem>
    ensures text { IfOk result (λ text. string_bytes text ≡ closing_text world.now.layout (world_of world.now) lines) }
    ensures told { IfOk result (λ text. WorldReads (world_of world.now)) }
{
    let mut text = groups_text(alloc, world)?;
    let counts = count_text(alloc, lines, world.marks())?;
    look_at_reports(world.reports());
    text.push_str(counts.as_str())?;
    Ok(text)
}
