//! What an audit finds of a text that is whole.

ghost use Rattle.std.specs.Prelude.{◌≡◌, IfOk, Some, count_by, slice_get, take, option_map};
ghost use Rattle.transcript.specs.Kinds.{is_begin, is_answered, is_aborted, is_crash};
ghost use Rattle.transcript.specs.Marks.{mark_of, marks_of};
ghost use Rattle.audit.specs.Checks.{CountsAnswer, Finds};
ghost use Rattle.audit.specs.Judging.{FindsBad};
ghost use Rattle.audit.specs.Reviews.{Reviews};
ghost use Rattle.audit.specs.Sweeps.{name_of};
ghost use Rattle.transcript.specs.Transcripts.{StripesRise};

use crate::findings::Finding;
use crate::reviews::{Review, go_through};
use crate::sweeps::{StripeName, first_missing, first_stop, happened_in};
use fab_base::NoMem;
use layout::Layout;
use std::alloc::Global;
use transcript::{Counts, ParsedAnswer, ParsedMark, StripeLine};

/// The first so many lines.
fn front(lines: &[StripeLine], count: usize) -> &[StripeLine]
    ensures { result.now ≡ take count lines.now }
{
    if count > lines.len() {
        return lines;
    }
    let (front, _) = lines.split_at(count);
    front
}

/// The stripe of the line at a place.
fn name_at(lines: &[StripeLine], place: usize) -> Option<StripeName>
    ensures { result ≡ option_map name_of (slice_get lines.now place) }
{
    let line = lines.get(place)?;
    Some(StripeName {
        group: line.group,
        stripe: line.stripe,
    })
}

/// The first named stripe whose happenings do not hold.
fn first_bad(
    alloc: Global,
    layout: &Layout,
    claims: &[ParsedMark],
    review: &Review,
    lines: &[StripeLine],
) -> Result<Option<StripeName>, NoMem>
    requires review { Reviews layout.now claims.now review.now }
    requires rise { StripesRise lines.now }
    ensures { IfOk result (FindsBad layout.now (marks_of claims.now) lines.now) }
{
    let operations = review.operations.as_slice();
    match first_stop(alloc, layout, claims, review, lines)? {
        None => {
            let happened = happened_in(alloc, operations.len(), lines)?;
            Ok(first_missing(claims, operations, happened.as_slice(), None))
        }
        Some(place) => {
            let happened = happened_in(alloc, operations.len(), front(lines, place))?;
            let stop = name_at(lines, place);
            Ok(first_missing(claims, operations, happened.as_slice(), stop))
        }
    }
}

/// Whether a mark is an End that is no abort.
fn is_answer(claim: &ParsedMark) -> bool
    ensures { result ≡ is_answered (mark_of claim.now) }
{
    match claim {
        ParsedMark::End { outcome, .. } => match outcome {
            ParsedAnswer::Data(_) | ParsedAnswer::Done => true,
            ParsedAnswer::Aborted(_) => false,
        },
        ParsedMark::Begin { .. } | ParsedMark::Crash { .. } => false,
    }
}

/// Whether a mark is an End that is an abort.
fn is_abort(claim: &ParsedMark) -> bool
    ensures { result ≡ is_aborted (mark_of claim.now) }
{
    match claim {
        ParsedMark::End { outcome, .. } => match outcome {
            ParsedAnswer::Data(_) | ParsedAnswer::Done => false,
            ParsedAnswer::Aborted(_) => true,
        },
        ParsedMark::Begin { .. } | ParsedMark::Crash { .. } => false,
    }
}

/// How many operations began.
fn count_begun(claims: &[ParsedMark]) -> usize
    ensures { result ≡ count_by (λ claim. is_begin (mark_of claim)) claims.now }
{
    claims
        .iter()
        .filter(|claim| matches!(claim, ParsedMark::Begin { .. }))
        .count()
}

/// How many operations were answered.
fn count_answered(claims: &[ParsedMark]) -> usize
    ensures { result ≡ count_by (λ claim. is_answered (mark_of claim)) claims.now }
{
    claims.iter().filter(|claim| is_answer(claim)).count()
}

/// How many operations were aborted.
fn count_aborted(claims: &[ParsedMark]) -> usize
    ensures { result ≡ count_by (λ claim. is_aborted (mark_of claim)) claims.now }
{
    claims.iter().filter(|claim| is_abort(claim)).count()
}

/// How many bricks crashed.
fn count_crashes(claims: &[ParsedMark]) -> usize
    ensures { result ≡ count_by (λ claim. is_crash (mark_of claim)) claims.now }
{
    claims
        .iter()
        .filter(|claim| matches!(claim, ParsedMark::Crash { .. }))
        .count()
}

/// Whether the counts are those of the marks.
fn counts_hold(counts: Counts, claims: &[ParsedMark]) -> bool
    ensures { CountsAnswer counts (marks_of claims.now) result }
{
    counts.begun == count_begun(claims) as u64
        && counts.answered == count_answered(claims) as u64
        && counts.aborted == count_aborted(claims) as u64
        && counts.crashes == count_crashes(claims) as u64
}

/// Judges what the lines of a text say together, by the first that fails: the marks, then a stripe's happenings, by group and stripe, then
/// the counts. `NoMemory` where no memory was left.
pub fn judge(
    alloc: Global,
    layout: &Layout,
    claims: &[ParsedMark],
    lines: &[StripeLine],
    counts: Counts,
) -> Result<Finding, NoMem>
    requires { StripesRise lines.now }
    ensures { IfOk result (Finds layout.now (marks_of claims.now) lines.now counts) }
{
    let Some(review) = go_through(alloc, layout, claims)? else {
        return Ok(Finding::BadMarks);
    };
    match first_bad(alloc, layout, claims, &review, lines)? {
        Some(name) => Ok(Finding::BadStripe {
            group: name.group,
            stripe: name.stripe,
        }),
        None => Ok(if counts_hold(counts, claims) {
            Finding::Sound
        } else {
            Finding::BadCount
        }),
    }
}
